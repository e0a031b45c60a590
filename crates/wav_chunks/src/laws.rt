//! What holds of samples, blocks and bytes, and of the parts of a wave. Each function does nothing: its contract is the law,
//! which a proof elsewhere can cite.

ghost use Rattle.wav_chunks.specs.Laws.{BlocksAreTheirBytes, ChannelsArePut, ChannelsArePutBack, WavesAreTheirParts};

/// The bytes of whole blocks are those that hold their samples.
pub fn blocks_are_their_bytes()
    ensures { BlocksAreTheirBytes }
{}

/// Samples that were put into whole blocks as one channel are taken again, and the other channels are as they were.
pub fn channels_are_put()
    ensures { ChannelsArePut }
{}

/// A channel that is put back where it was taken changes nothing.
pub fn channels_are_put_back()
    ensures { ChannelsArePutBack }
{}

/// A wave that has a layout is its head, the bytes of its blocks and its tail; its blocks are inside it.
pub fn n2()
    ensures { WavesAreTheirParts }
{}
