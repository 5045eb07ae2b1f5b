//! The words of the command line.

ghost use Rattle.std.specs.Prelude.{◌≡◌, ◌∷◌, [], ◌++◌, OnOk, OnErr};
ghost use Rattle.iopt.specs.Words.{AskFor};

use pt_num::Memory;
use pt_stream::read_dec;
use std::alloc::Global;
use std::marker::Model;

/// What is put for a script.
#[derive(Clone, Copy, Debug, PartialEq, Eq)]
pub enum Product {
    /// The replies, the branches of its forks beside each other, on leases of a shared space.
    Beside,
    /// The replies, the branches one after the other, over one owner.
    InTurn,
    /// The image of the space that it leaves, over one owner.
    Image,
}

/// What a command line asks for.
#[derive(Clone, Copy, Debug, PartialEq, Eq)]
pub enum Task {
    /// To read a script, and to put this for it.
    Run { product: Product },
    /// To make the script of a number, and to run it.
    Make { number: u64 },
    /// To read an image and a script behind it, and to run the script on the image's space.
    Resume,
}

/// The words of a command line, seen as a list of words, each a list of bytes.
#[derive(Drop)]
pub struct Words {
    words: Vec<String>,
    alloc: Global,
}

impl Model for Words {
    ghost use Rattle.std.specs.Prelude.{ℕ, List, map};
    ghost use Rattle.std.specs.String.{string_bytes};

    ghost Value = { List (List ℕ) };

    ghost view = { λ w. map string_bytes w.words.items };
}

impl Words {
    /// No words.
    pub fn new(alloc: Global) -> Words
        ensures { result ≡ [] }
    {
        Words {
            words: Vec::new(alloc),
            alloc,
        }
    }

    /// Appends a word. After `Memory` the list is as before.
    pub fn push(&mut self, word: &str) -> Result<(), Memory>
        ensures ok { OnOk result (self.new ≡ self.old ++ word.now ∷ []) }
        ensures err { OnErr result (self.new ≡ self.old) }
    {
        let mut text = String::new(self.alloc);
        text.push_str(word)?;
        self.words.push(text)?;
        Ok(())
    }

    /// What the words ask for. `None` comes exactly where the program doesn't accept them.
    pub fn task(&self) -> Option<Task>
        ensures { AskFor self.now result }
    {
        match self.words.as_slice() {
            [word] => task_of_one(word.as_str()),
            [first, second] => task_of_two(first.as_str(), second.as_str()),
            _ => None,
        }
    }
}

/// What one word asks for.
fn task_of_one(word: &str) -> Option<Task>
    ensures { AskFor (word.now ∷ []) result }
{
    if word == "run" {
        let product = Product::Beside;
        return Some(Task::Run { product });
    }
    if word == "save" {
        let product = Product::Image;
        return Some(Task::Run { product });
    }
    if word == "resume" {
        return Some(Task::Resume);
    }
    None
}

/// What two words ask for.
fn task_of_two(first: &str, second: &str) -> Option<Task>
    ensures { AskFor (first.now ∷ second.now ∷ []) result }
{
    if first == "run" && second == "--plain" {
        let product = Product::InTurn;
        return Some(Task::Run { product });
    }
    if first != "make" {
        return None;
    }
    let number = read_dec(second.as_bytes())?;
    Some(Task::Make { number })
}
