// The part of a script that is being read.
use pt_model::Name;

/// What the lines before the body state.
#[derive(Clone, Copy, Debug, PartialEq, Eq)]
pub(crate) struct Header {
    pub(crate) format: Name,
    pub(crate) levels: u32,
    pub(crate) frames: u32,
    pub(crate) hold: u32,
}

/// The part of a script that is being read, with what the header states so far.
#[derive(Clone, Copy, Debug, PartialEq, Eq)]
pub(crate) enum Stage {
    Format,
    Frames {
        format: Name,
        levels: u32,
    },
    Hold {
        format: Name,
        levels: u32,
        frames: u32,
    },
    Body {
        header: Header,
    },
    Tail {
        header: Header,
    },
    Over {
        header: Header,
    },
}
