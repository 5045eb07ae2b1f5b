// Scripts.
use pt_model::{Ask, Command, Name};
use std::marker::Model;

/// The body of a script, seen as the list of its commands, one a line.
#[derive(Drop)]
pub struct Body {
    commands: Vec<Command>,
}

impl Model for Body {
    ghost use Rattle.std.specs.Prelude.{List};
    ghost use Rattle.pt_model.specs.declared.command.Command.{Command};

    ghost Value = { List Command };

    ghost view = { λ s. s.commands.items };
}

impl Body {
    ghost use Rattle.std.specs.Prelude.{◌≡◌};

    /// The body of these commands.
    pub fn of(commands: Vec<Command>) -> Body
        ensures { result ≡ commands.items }
    {
        Body { commands }
    }

    /// The commands, in the order of their lines.
    pub fn commands(&self) -> &[Command]
        ensures { result.now ≡ self.now }
    {
        &self.commands
    }
}

/// What a script asks after `close`, seen as a list, one a line.
#[derive(Drop)]
pub struct Tail {
    asks: Vec<Ask>,
}

impl Model for Tail {
    ghost use Rattle.std.specs.Prelude.{List};
    ghost use Rattle.pt_model.specs.declared.command.Ask.{Ask};

    ghost Value = { List Ask };

    ghost view = { λ s. s.asks.items };
}

impl Tail {
    ghost use Rattle.std.specs.Prelude.{◌≡◌};

    /// The tail of these asks.
    pub fn of(asks: Vec<Ask>) -> Tail
        ensures { result ≡ asks.items }
    {
        Tail { asks }
    }

    /// The asks, in the order of their lines.
    pub fn asks(&self) -> &[Ask]
        ensures { result.now ≡ self.now }
    {
        &self.asks
    }
}
