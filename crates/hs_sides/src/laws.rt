// Laws of attempts.
ghost use Rattle.std.specs.Prelude.{◌≡◌, Bool};
ghost use Rattle.hs_turns.specs.Attempts.{attempt};
ghost use Rattle.hs_turns.specs.Machine.{Machine};
ghost use Rattle.hs_turns.specs.Waiting.{Entry};
ghost use Rattle.hs_sides.specs.Sides.{Run, attempted, in_place, side_of};

/// What an attempt comes to depends on no waiter, no queue and no input, and it leaves them as they are.
pub fn attempts_look_at_no_other_entry()
    ensures { (run : Run) (is_first : Bool) (entry : Entry) (m : Machine) → attempt run.dialect run.opening run.made is_first entry m ≡ in_place m (attempted run m.names is_first entry (side_of m)) }
{}
