// A script as a whole.
ghost use Rattle.std.specs.Prelude.{IsTrue};
ghost use Rattle.pt_script.specs.Numbered.{lines_of, is_lawful, has_numbers, has_ask_numbers};

use crate::script::{Body, Tail};
use pt_model::Name;

/// A script. Its type keeps that its lines are those of a text of the language, within all limits, and
/// that each command and each ask carries the number of its line. For a format other than `amdv1`,
/// `levels` is the format's number of levels.
#[derive(Drop)]
pub struct Script {
    pub format: Name,
    pub levels: u32,
    pub frames: u32,
    pub hold: u32,
    pub body: Body,
    pub tail: Tail,
    pub ghost lawful: { IsTrue (is_lawful (lines_of format levels frames hold body tail)) },
    pub ghost numbered: { IsTrue (has_numbers body) },
    pub ghost tail_numbered: { IsTrue (has_ask_numbers body tail) },
}
