//! What holds of pad forms. Each function does nothing: its contract is the law, which a proof
//! elsewhere can cite.

ghost use Rattle.dpx_packing.specs.PadLaws.{FilledFormsAreWhole, FormsAreCutWhole, FormsTellTheirEnds, RunsAreRead, SpelledFormsAreWhole, ValuesAreRead, WrittenFormIsShortest, WrittenFormsAreWhole, WrittenPadsAreRead, ZerosAreRead};

/// The form that is written of fewer than 2^32 pads is read as these pads.
pub fn written_pads_are_read()
    ensures { WrittenPadsAreRead }
{}

/// No form of the pads is shorter than the one that is written.
pub fn written_form_is_shortest()
    ensures { WrittenFormIsShortest }
{}

/// Each form of fewer than 2^32 pads is read, longer ones than the shortest too.
pub fn each_form_is_read()
    ensures zeros { ZerosAreRead }
    ensures runs { RunsAreRead }
    ensures values { ValuesAreRead }
{}

/// Each form of fewer than 2^32 pads is a whole form, the one that is written too, and each that is read as pads.
pub fn forms_are_whole()
    ensures spelled { SpelledFormsAreWhole }
    ensures written { WrittenFormsAreWhole }
    ensures filled { FilledFormsAreWhole }
{}

/// A whole form ends in one place, whatever stands behind it; what is found to be a form is a whole one.
pub fn forms_tell_their_ends()
    ensures ends { FormsTellTheirEnds }
    ensures cut { FormsAreCutWhole }
{}
