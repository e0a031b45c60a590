//! What holds of coded bytes and of reading them. Each function does nothing: its contract is the
//! law, which a proof elsewhere can cite.

ghost use Rattle.range_coder.specs.Facts.{CodeLengths, CodingsAreJoined, PartsStay, SetsOfStates, DefaultTableIsLive};
ghost use Rattle.range_coder.specs.Laws.{CodedIsRead, CodedAreBytes, CodedBegins, OneMoreIsRead, FrontIsRead, ReadIsInside, ReadOnIsJoined, NarrowedIsJoined, DecidedIsJoined, StatesAreJoined, ChoicesStayLive, ChoicesAreOnStates, ChoicesKeepCount, PutKeepsCount, GetKeepsCount, MovedIsDecided, MovedLeaves, PartedAreNotBothRead, SymbolsPart, OverlongParts, PlacedNumbersAreOne, SymbolSlots, OverlongSlots};

/// The coded bytes of a list of decisions are read as these, their first byte isn't 255, and bytes
/// that are read as a list of decisions are read as exactly one of the two that may follow it.
pub fn n3()
    ensures reads { CodedIsRead }
    ensures begins { CodedBegins }
    ensures one { OneMoreIsRead }
{}

/// Coded bytes are bytes.
pub fn coded_are_bytes()
    ensures { CodedAreBytes }
{}

/// What is read as a list of decisions is read as each front of it.
pub fn front_is_read()
    ensures { FrontIsRead }
{}

/// What a reader has read, the bytes say.
pub fn read_is_inside()
    ensures { ReadIsInside }
{}

/// Decisions and choices one after another.
pub fn lists_are_joined()
    ensures read { ReadOnIsJoined }
    ensures narrowed { NarrowedIsJoined }
    ensures decided { DecidedIsJoined }
    ensures states { StatesAreJoined }
{}

/// Choices on live states are decisions on states, and leave live states, as many as before.
pub fn choices_stay_live()
    ensures live { ChoicesStayLive }
    ensures states { ChoicesAreOnStates }
    ensures count { ChoicesKeepCount }
    ensures put { PutKeepsCount }
    ensures got { GetKeepsCount }
{}

/// Choices on one set of states, among others before and behind it.
pub fn sets_stand_apart()
    ensures decided { MovedIsDecided }
    ensures states { MovedLeaves }
{}

/// The same bytes aren't read as two lists of choices that part: so where each slot is determined by
/// the choices before it, bytes determine the whole list.
pub fn one_list_is_read()
    ensures { PartedAreNotBothRead }
{}

/// Two numbers part wherever they stand, and whatever follows them, and so does a number and a symbol
/// whose exponent passes 30.
pub fn symbols_part()
    ensures numbers { SymbolsPart }
    ensures overlong { OverlongParts }
{}

/// Bytes determine a whole list of so many numbers, where the set of states of each number, and
/// whether it has a sign, may depend on the numbers before it.
pub fn one_list_of_numbers_is_read()
    ensures { PlacedNumbersAreOne }
{}

/// A symbol uses the 32 slots of its set.
pub fn symbol_slots()
    ensures number { SymbolSlots }
    ensures overlong { OverlongSlots }
{}

/// How long codes are: coded bytes by their decisions, and numbers by their exponents.
pub fn code_lengths()
    ensures { CodeLengths }
{}

/// Choices that are put, refused or got one after another are those of the joined list, and what is put or got from
/// the first choice to the last is coded or read as the list.
pub fn codings_are_joined()
    ensures { CodingsAreJoined }
{}

/// Lists that part go on to part, whatever comes before and behind, and wherever their set stands.
pub fn parts_stay()
    ensures { PartsStay }
{}

/// Many sets of states one behind another: live states, the slots that choices use, and choices on one set of them.
pub fn sets_of_states()
    ensures { SetsOfStates }
{}

/// The default table is closed, and 8 to 248 are live for it.
pub fn default_table_is_live()
    ensures { DefaultTableIsLive }
{}
