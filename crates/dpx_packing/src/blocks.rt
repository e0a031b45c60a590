// A stretch of an image that is taken apart and put together as one, and many of them in a row.

ghost use Rattle.std.specs.Prelude.{◌≡◌, ℕ, List};
ghost use Rattle.dpx_packing.specs.Blocks.{Form, EachFits, HaveLengths, repeated};

/// How many bytes a block has, and how many samples and pads these hold.
#[derive(Clone, Copy)]
pub struct Sizes {
    pub bytes: usize,
    pub samples: usize,
    pub pads: usize,
}

pub trait Block {
    // What the block holds.
    ghost form: { Self → Form };

    // The samples and pads that a block can be made of.
    ghost Fits: { Self → List ℕ → List ℕ → Type 0 };

    // The block's own numbers fit.
    ghost IsSound: { Self → Type 0 };

    fn sizes(&self) -> Sizes
        requires { IsSound self.now }
        ensures bytes { result.bytes ≡ (form self.now).bytes }
        ensures samples { result.samples ≡ (form self.now).samples }
        ensures pads { result.pads ≡ (form self.now).pads };

    fn split(&self, bytes: &[u8], samples: &mut [u16], pads: &mut [u8])
        requires sound { IsSound self.now }
        requires lengths { HaveLengths (form self.now) bytes.now samples.old pads.old }
        ensures samples { samples.new ≡ (form self.now).samples_of bytes.now }
        ensures pads { pads.new ≡ (form self.now).pads_of bytes.now };

    fn join(&self, samples: &[u16], pads: &[u8], bytes: &mut [u8])
        requires sound { IsSound self.now }
        requires lengths { HaveLengths (form self.now) bytes.old samples.now pads.now }
        requires fits { Fits self.now samples.now pads.now }
        ensures { bytes.new ≡ (form self.now).bytes_of samples.now pads.now };
}

/// Takes so many blocks in a row apart.
pub fn split_blocks<B: Block>(
    block: &B,
    count: usize,
    bytes: &[u8],
    samples: &mut [u16],
    pads: &mut [u8],
)
    requires sound { B.IsSound block.now }
    requires lengths { HaveLengths (repeated (B.form block.now) count) bytes.now samples.old pads.old }
    ensures samples { samples.new ≡ (repeated (B.form block.now) count).samples_of bytes.now }
    ensures pads { pads.new ≡ (repeated (B.form block.now) count).pads_of bytes.now }
{
    let sizes = block.sizes();
    for i in 0..count {
        let byte = i * sizes.bytes;
        let sample = i * sizes.samples;
        let pad = i * sizes.pads;
        block.split(
            &bytes[byte..byte + sizes.bytes],
            &mut samples[sample..sample + sizes.samples],
            &mut pads[pad..pad + sizes.pads],
        );
    }
}

/// Puts so many blocks in a row together.
pub fn join_blocks<B: Block>(
    block: &B,
    count: usize,
    samples: &[u16],
    pads: &[u8],
    bytes: &mut [u8],
)
    requires sound { B.IsSound block.now }
    requires lengths { HaveLengths (repeated (B.form block.now) count) bytes.old samples.now pads.now }
    requires fits { EachFits (B.Fits block.now) (B.form block.now) count samples.now pads.now }
    ensures { bytes.new ≡ (repeated (B.form block.now) count).bytes_of samples.now pads.now }
{
    let sizes = block.sizes();
    for i in 0..count {
        let byte = i * sizes.bytes;
        let sample = i * sizes.samples;
        let pad = i * sizes.pads;
        block.join(
            &samples[sample..sample + sizes.samples],
            &pads[pad..pad + sizes.pads],
            &mut bytes[byte..byte + sizes.bytes],
        );
    }
}
