// The samples of a block.

ghost use Rattle.std.specs.Prelude.{◌≡◌, ◌<◌, ◌≤◌, ◌*◌, pos, replicate, IfOk};
ghost use Rattle.std.specs.Borrow.{sem};
ghost use Rattle.flac_frame.specs.Samples.{IsBlock, channel_of, channels_of};
ghost use Rattle.flac_frame.specs.Reading.{Reads};
ghost use Rattle.flac_frame.specs.Frame.{samples_at};
ghost use Rattle.flac_frame.specs.Block.{LendsChannel};
ghost use Rattle.std.specs.Prelude.{length};

use crate::FlacWhy;
use crate::channels::subframes;
use crate::header::Header;
use crate::stereo::decorrelate;
use cook_bits::{BitReader, NoMemory};
use std::alloc::Global;
use std::marker::Model;

/// The samples of a block, as many of each channel, with room for more. Contracts see the numbers of channels, of samples
/// that there is room for and of samples, and the list that the samples lie in.
#[derive(Drop)]
pub struct Block {
    channels: u8,
    capacity: u32,
    len: u32,
    // channel behind channel, each with its room
    samples: Vec<i32>,
}

impl Model for Block {
    ghost use Rattle.flac_frame.specs.Samples.{BlockValue, IsBlock};

    ghost Value = { BlockValue };

    ghost view = { λ b. record { channels = b.channels; capacity = b.capacity; len = b.len; samples = b.samples.items } };

    ghost invariant = { λ b. IsBlock (record { channels = b.channels; capacity = b.capacity; len = b.len; samples = b.samples.items }) };
}

impl Block {
    /// A block of no samples, with room for `capacity` samples of each of the channels.
    pub fn new(alloc: Global, channels: u8, capacity: u32) -> Result<Block, NoMemory>
        ensures { IfOk result (λ block. block ≡ record { channels = channels; capacity = capacity; len = 0; samples = replicate (channels * capacity) (pos 0) }) }
    {
        let room = channels as usize * capacity as usize;
        let samples = vec![in alloc; 0; room]?;
        Ok(Block {
            channels,
            capacity,
            len: 0,
            samples,
        })
    }

    /// How many samples each channel has. It takes no memory.
    pub fn len(&self) -> u32
        ensures { result ≡ self.now.len }
    {
        self.len
    }

    /// Sets how many samples each channel has, at most as many as there is room for. Those that were written before
    /// stand where they were. It takes no memory.
    pub fn set_len(&mut self, len: u32)
        requires { len ≤ self.old.capacity }
        ensures { self.new ≡ record self.old { len = len } }
    {
        self.len = len;
    }

    /// The samples of a channel, counted from 0. It takes no memory.
    #[tactic(auto, unfolding(crate::specs::Samples::channel_of, crate::specs::Samples::stretch))]
    pub fn channel(&self, k: u8) -> &[i32]
        requires { k < self.now.channels }
        ensures samples { result.now ≡ channel_of self.now k }
        ensures len { length result.now ≡ self.now.len }
    {
        let start = k as usize * self.capacity as usize;
        &self.samples.as_slice()[start..start + self.len as usize]
    }

    /// The samples of a channel, counted from 0, to be written. It takes no memory.
    #[tactic(auto, unfolding(crate::specs::Samples::channel_of, crate::specs::Samples::stretch, crate::specs::Samples::written_at))]
    pub fn channel_mut(&mut self, k: u8) -> &mut [i32]
        requires { k < self.old.channels }
        ensures* writes_back { sem 𝓛 (LendsChannel self.entry k result) }
        ensures samples { result.now ≡ channel_of self.old k }
    {
        let start = k as usize * self.capacity as usize;
        let end = start + self.len as usize;
        self.samples.slice_mut(start..end)
    }

    // Its samples are those that its numbers say.
    pub(crate) fn is_whole(&self)
        ensures { IsBlock self.now }
    {
        let _len = self.len;
    }

    /// How many channels there are.
    pub(crate) fn channels(&self) -> u8
        ensures { result ≡ self.now.channels }
    {
        self.channels
    }

    /// How many samples of each channel there is room for.
    pub(crate) fn capacity(&self) -> u32
        ensures { result ≡ self.now.capacity }
    {
        self.capacity
    }

    /// Reads the samples of a frame behind its header, as many of each channel as the header says.
    #[tactic(auto, unfolding(crate::specs::Frame::samples_at, crate::specs::Samples::channels_of))]
    pub(crate) fn read_samples(
        &mut self,
        reader: &mut BitReader<'_>,
        header: Header,
        bits: u32,
    ) -> Result<(), FlacWhy>
        requires low { 1 ≤ bits }
        requires high { bits ≤ 24 }
        requires room { header.size ≤ self.old.capacity }
        requires two { 8 ≤ header.channel_code → self.old.channels ≡ 2 }
        ensures samples { Reads (λ _. channels_of self.new) result reader.new
            (samples_at header.channel_code bits header.size self.old.channels reader.old) }
        ensures channels { self.new.channels ≡ self.old.channels }
        ensures capacity { self.new.capacity ≡ self.old.capacity }
    {
        self.len = header.size;
        let room = self.capacity as usize;
        let size = header.size as usize;
        let count = self.channels as usize;
        let code = header.channel_code;
        let samples = self.samples.as_mut_slice();
        subframes(reader, code, bits, size, room, count, samples)?;
        decorrelate(code, bits, size, room, count, samples)?;
        Ok(())
    }
}
