// What holds of the literal grammar and needs no call.
ghost use Rattle.hs_syntax.specs.Meant.{HasOneReading};

/// A statement's tokens have one reading that is meant, the one that `recognised` answers; and a reading in which no parentheses
/// of an expression or of IN hold nothing but a body in parentheses is it. Nothing is done.
pub fn law_of_one_reading()
    ensures { HasOneReading }
{}
