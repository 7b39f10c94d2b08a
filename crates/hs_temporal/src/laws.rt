//! Laws of days, of timestamps and of their texts, each on a function that does nothing. Proofs of other
//! crates cite them from `DayLemmas.antt`, `StampLemmas.antt` and `YearLemmas.antt` in `proofs/`.
ghost use Rattle.std.specs.Prelude.{◌≡◌, ◌↔◌, ◌≤◌, ◌<◌, ℕ, ℤ, pos, true};
ghost use Rattle.jiff_core.specs.Calendar.{IsCivilDate, days_from_civil};
ghost use Rattle.hs_values.specs.Years.{is_day, is_moment};
ghost use Rattle.hs_temporal.specs.declared.parts.Part.TheVariants as part;
ghost use Rattle.hs_temporal.specs.Days.{first_day, last_day, IsDay, IsMicros, year_of, month_of, monthday_of, day_of, time_of, moment_at, day_micros};
ghost use Rattle.hs_temporal.specs.Parts.{part_of};
ghost use Rattle.hs_temporal.specs.Texts.{date_text, stamp_text};

/// The days that a DATE may have are those from the first of January of the year 1 to the last of December
/// of the year 9999, and the timestamps are the moments of these days; so lawful values meet what the calls
/// of this crate ask for.
pub fn lawful_days_are_of_the_years_1_to_9999()
    ensures first { days_from_civil (pos 1) 1 1 ≡ first_day }
    ensures last { days_from_civil (pos 9999) 12 31 ≡ last_day }
    ensures days { (day : ℤ) → (is_day day ≡ true) ↔ IsDay day }
    ensures moments { (micros : ℤ) → (is_moment micros ≡ true) ↔ IsMicros micros }
{}

/// The year, the month and the day of a day number are a date of the Gregorian calendar, which has this
/// number; and each date from the year 1 to the year 9999 has such a number, with these parts.
pub fn a_day_is_one_date()
    ensures date { (day : ℤ) → IsDay day → IsCivilDate (pos (year_of day)) (month_of day) (monthday_of day) × (1 ≤ year_of day) × (days_from_civil (pos (year_of day)) (month_of day) (monthday_of day) ≡ day) }
    ensures number { (year month day : ℕ) → 1 ≤ year → IsCivilDate (pos year) month day → IsDay (days_from_civil (pos year) month day) × (year_of (days_from_civil (pos year) month day) ≡ year) × (month_of (days_from_civil (pos year) month day) ≡ month) × (monthday_of (days_from_civil (pos year) month day) ≡ day) }
{}

/// A timestamp is its day and its time of day, and each day and time of day are those of one timestamp. The
/// year, the month and the day of a date are the parts of the timestamp at its beginning.
pub fn a_timestamp_is_a_day_and_a_time()
    ensures whole { (micros : ℤ) → (moment_at (day_of micros) (time_of micros) ≡ micros) × (time_of micros < day_micros) }
    ensures parts { (day : ℤ) (time : ℕ) → time < day_micros → (day_of (moment_at day time) ≡ day) × (time_of (moment_at day time) ≡ time) }
    ensures date { (day : ℤ) → (part_of part.Year (moment_at day 0) ≡ pos (year_of day)) × (part_of part.Month (moment_at day 0) ≡ pos (month_of day)) × (part_of part.Day (moment_at day 0) ≡ pos (monthday_of day)) }
{}

/// Two days with one text are the same, and so are two timestamps.
pub fn a_text_is_of_one_day()
    ensures days { (a b : ℤ) → IsDay a → IsDay b → date_text a ≡ date_text b → a ≡ b }
    ensures timestamps { (a b : ℤ) → IsMicros a → IsMicros b → stamp_text a ≡ stamp_text b → a ≡ b }
{}
