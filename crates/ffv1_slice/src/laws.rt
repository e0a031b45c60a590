//! What holds of the definitions of slices. Each function does nothing: its contract is the law, which a proof
//! elsewhere can cite.

ghost use Rattle.ffv1_slice.specs.Laws.{CodedIsCode, CodedIsFew, CodedIsHead, CodedIsOne, CodedIsSome, CodesTellHead, HeadIsOne};

use range_coder::{States, Table, laws};

/// The coded bytes of the decisions of a head and a tile code this head and this tile, and bytes code no other head and
/// tile of the same size.
pub fn n5()
    ensures codes { CodedIsCode }
    ensures one { CodedIsOne }
{
    laws::n3();
    laws::one_list_is_read();
    laws::symbols_part();
    laws::symbol_slots();
    laws::sets_of_states();
    laws::choices_stay_live();
    let _table = Table::default_table();
}

/// Bytes that code a head and a tile begin as a slice with this head, and so do the coded bytes of a head and a tile; these
/// are at least one, and at most 16,001,000 for a tile of at most 16,000,000 / 105 pixels.
pub fn slices_begin()
    ensures tell { CodesTellHead }
    ensures head { CodedIsHead }
    ensures some { CodedIsSome }
    ensures few { CodedIsFew }
{
    laws::n3();
    laws::coded_are_bytes();
    laws::front_is_read();
    laws::lists_are_joined();
    laws::symbol_slots();
    laws::sets_of_states();
    laws::choices_stay_live();
    laws::code_lengths();
    let _table = Table::default_table();
}

/// Bytes begin as a slice with one head at most.
pub fn heads_are_one()
    ensures { HeadIsOne }
{
    laws::one_list_is_read();
    laws::symbols_part();
    laws::symbol_slots();
    laws::sets_of_states();
    let _table = Table::default_table();
}
