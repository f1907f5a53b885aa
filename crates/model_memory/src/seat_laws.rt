//! Laws of seats: which seat is reported as missing, and at which call a seat first differs from the entries. Each law
//! is the contract of a function that does nothing.
ghost use Rattle.model_memory.specs.SeatLaws.{CallsHaveCommands, SeatsAreAll, SwappedSeatsAreMissing, StrangersAreMissing, EntriesHaveSeats, FirstDifferenceIsOne, MissingIsLeast, NoneIsMissing, SeatsDifferOnce, SettledDifferNowhere, SeatsSettleOrDiffer};

/// A place has its own seat if the seat at the place has the place's number. The missing seat is the lowest place below
/// the count that doesn't have its own seat. If all places below the count have their own seats, but there is a
/// stranger, the missing seat is the count. A stranger is a seat beyond the count, or an entry of a worker whose number
/// isn't below the count. In all other cases no seat is missing.
pub fn missing_seat_is_least()
    ensures some { MissingIsLeast }
    ensures none { NoneIsMissing }
{}

/// Either all seats are settled, or exactly one call of one seat is the first that differs from the entries.
pub fn seats_settle_or_differ()
    ensures either { SeatsSettleOrDiffer }
    ensures settled { SettledDifferNowhere }
    ensures once { SeatsDifferOnce }
{}

/// The commands of a worker's calls (`calls_of`) are the commands of the worker's entries (`commands_of`).
pub fn calls_have_commands()
    ensures { CallsHaveCommands }
{}

/// If no seat is missing, each place below the count has the seat with the place's number, and there is no stranger: no
/// seat beyond the count, and no entry of a worker without a seat. Examples: a missing seat is reported if seats are
/// swapped, too few or too many, or if there is an entry of a worker without a seat.
pub fn missing_seats_are_told()
    ensures all { SeatsAreAll }
    ensures swapped { SwappedSeatsAreMissing }
    ensures strangers { StrangersAreMissing }
    ensures entries { EntriesHaveSeats }
{}

/// Two lists of calls have at most one first difference.
pub fn first_difference_is_one()
    ensures { FirstDifferenceIsOne }
{}
