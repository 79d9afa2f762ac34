// The kinds of step without arguments.
use step_table::Kind;

pub(crate) struct Ticks;

impl Kind for Ticks {
    ghost use Rattle.step_table.specs.Kinds.{move};
    ghost use Rattle.ring_core.specs.declared.player_steps.Move.TheVariants.{Played};

    ghost kind = { move Played };
}

pub(crate) struct Retires;

impl Kind for Retires {
    ghost use Rattle.step_table.specs.Kinds.{move};
    ghost use Rattle.ring_core.specs.declared.player_steps.Move.TheVariants.{Retired};

    ghost kind = { move Retired };
}

pub(crate) struct Holds;

impl Kind for Holds {
    ghost use Rattle.step_table.specs.Kinds.{glance};
    ghost use Rattle.ring_core.specs.declared.player_steps.Glance.TheVariants.{Here};

    ghost kind = { glance Here };
}

pub(crate) struct Publishes;

impl Kind for Publishes {
    ghost use Rattle.step_table.specs.Kinds.{publish};

    ghost kind = { publish };
}

pub(crate) struct Peeks;

impl Kind for Peeks {
    ghost use Rattle.step_table.specs.Kinds.{peek};

    ghost kind = { peek };
}

pub(crate) struct Leaves;

impl Kind for Leaves {
    ghost use Rattle.step_table.specs.Kinds.{leave};

    ghost kind = { leave };
}

pub(crate) struct Notes;

impl Kind for Notes {
    ghost use Rattle.step_table.specs.Kinds.{note};

    ghost kind = { note };
}

pub(crate) struct Learns;

impl Kind for Learns {
    ghost use Rattle.step_table.specs.Kinds.{learn};

    ghost kind = { learn };
}

pub(crate) struct Gathers;

impl Kind for Gathers {
    ghost use Rattle.step_table.specs.Kinds.{gather};

    ghost kind = { gather };
}
