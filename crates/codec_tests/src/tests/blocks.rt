use super::is;
use flac_frame::Block;
use std::test::Fail;

#[test]
fn a_block_holds_each_channel_apart(rt: HostRuntime) -> Result<(), Fail> {
    let mut block = Block::new(rt.alloc(), 2, 4)?;
    is(&rt, block.len(), 0);
    block.set_len(3);
    block.channel_mut(1).fill(-7);
    is(&rt, block.len(), 3);
    is(&rt, block.channel(0), [0, 0, 0].as_slice());
    is(&rt, block.channel(1), [-7, -7, -7].as_slice());
    Ok(())
}
