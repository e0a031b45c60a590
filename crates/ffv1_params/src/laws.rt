//! What holds of the definitions of records. Each function does nothing: its contract is the law, which a
//! proof elsewhere can cite.

ghost use Rattle.ffv1_params.specs.Laws.{FilmIsSound, FilmRows, WrittenRecordIsRead};

use range_coder::{States, Table, laws};

/// The record of the parameters that this project writes is read as these parameters.
pub fn n4()
    ensures { WrittenRecordIsRead }
{
    laws::n3();
    laws::coded_are_bytes();
    laws::front_is_read();
    laws::read_is_inside();
    laws::lists_are_joined();
    laws::choices_stay_live();
    laws::symbols_part();
    laws::symbol_slots();
    cook_bits::laws::parity_leaves_zero();
    let _table = Table::default_table();
    let _states = States::fresh();
}

/// The rows of slices that this project writes: at least one and at most 1,024, no more than lines, and none with more
/// lines than its bytes are counted for.
pub fn film_rows()
    ensures { FilmRows }
{}

/// The parameters that this project writes are sound, as all that are read.
pub fn film_is_sound()
    ensures { FilmIsSound }
{}
