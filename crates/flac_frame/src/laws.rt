//! What holds of the parameters of a stream, of a block's samples and of frames. Each function does nothing: its contract is the
//! law, which a proof elsewhere can cite.

ghost use Rattle.flac_frame.specs.Laws.{ChannelIsWritten, InfoIsRead};
ghost use Rattle.flac_frame.specs.RoundTrip.{BlockIsRead, FrameIsRead, FrameIsLight};

use cook_bits::laws as bits;
use flac_predict::laws as prediction;

/// Samples that are written into a channel stand there, and those of the other channels stay.
pub fn channel_is_written()
    ensures { ChannelIsWritten }
{}

/// The bytes of a stream's parameters are read as these parameters.
pub fn info_is_read()
    ensures { InfoIsRead }
{}

/// The frame that is written of samples is read as these samples, and the bytes of a stream's parameters as these
/// parameters.
pub fn n7()
    ensures frame { FrameIsRead }
    ensures info { InfoIsRead }
{
    bits::written_field_is_read();
    bits::bits_and_bytes_tell_each_other();
    bits::bits_of_bytes();
    bits::checksums_fit();
    prediction::samples_are_restored();
    prediction::counts();
    prediction::residuals_are_small();
    prediction::choice_is_light();
    info_is_read();
}

/// The frame that `encode` answers for a block is read as the samples of the block.
pub fn block_is_read()
    ensures { BlockIsRead }
{
    n7();
}

/// A frame that is written has at most 98,400 bytes.
pub fn frames_are_light()
    ensures { FrameIsLight }
{
    prediction::counts();
    prediction::residuals_are_small();
    prediction::choice_is_light();
}
