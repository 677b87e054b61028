// What a thread at the table knows, as a type.
use std::marker::Model;

/// What a thread at the table knows. Contracts see it as a `Sight`; no value of it is made.
pub struct View {
    blank: (),
}

impl Model for View {
    ghost use Rattle.cy_table.specs.Seats.{Sight};
    ghost use Rattle.cy_table.specs.Sights.{no_sight};

    ghost Value = { Sight };

    ghost view = { λ _. no_sight };
}
