//! The loop of a client round the picker, with storage of its own: the keeper is told what came from a peer, says what to ask of it, and
//! hands out the blocks of each piece that is had, to be stored. The peer here answers from memory, and the storage is memory too.
#![tactic(auto)]

ghost use Rattle.std.specs.Prelude.{◌≤◌, IfOk};
ghost use Rattle.bt_meta.specs.Layout.{piece_count};

mod peer;
mod store;

use anyhow::Result;
use bt_meta::{Bitfield, Block, Torrent};
use bt_picker::{Keeper, Reply, Rules, Told};
use bytes::Bytes;
use peer::Peer;
use rand_core::Rng;
use rand_pcg::Lcg64Xsh32;
use sha1::Sha1;
use std::alloc::Global;
use std::io::Print;
use std::sync::Arc;
use store::Store;

/// The bytes of a piece.
const PIECE_LEN: u32 = 32_768;

/// The peer's bitfield, as it came: it has both pieces.
const SHOWN: [u8; 1] = [0b1100_0000];

/// As long as this example waits for its peer.
const MOST_ANSWERS: u32 = 100;

/// Asks of one turn: a full pipe's requests, as many cancels, and the reply that ends them.
const MOST_ASKS: u32 = 11;

fn main(rt: HostRuntime) -> Result<()> {
    let alloc = rt.alloc();
    let mut peer = Peer::new(alloc, vec![in alloc; b'a'; 49_152]?);
    let torrent = Arc::new(alloc, torrent_of(alloc, peer.content())?)?;
    let mut store = Store::new(alloc, &torrent)?;
    let mut keeper = Keeper::new(alloc, torrent.clone()?, 1, Rules::usual())?;
    download(alloc, &mut keeper, 0, &mut peer, &mut store)?;
    tell(&rt, &keeper, &peer, &store)?;
    let mut keeper = Keeper::new(alloc, torrent.clone()?, 1, Rules::usual())?;
    resume(alloc, &mut keeper, 0, &torrent, &store)?;
    tell(&rt, &keeper, &peer, &store)
}

/// What a metainfo file would tell of this content.
fn torrent_of(alloc: Global, content: &[u8]) -> Result<Torrent>
    ensures { IfOk result (λ torrent. 1 ≤ piece_count torrent.layout) }
{
    let mut hashes = Vec::new(alloc);
    for piece in content.chunks(PIECE_LEN as usize) {
        hashes.push(Sha1::digest(piece))?;
    }
    Ok(Torrent::of_parts(PIECE_LEN, content.len() as u64, hashes, [0; 20])?)
}

/// Prints how the download stands, and the hash of what is stored.
fn tell<R: Print + AllocGlobal>(rt: &R, keeper: &Keeper, peer: &Peer, store: &Store) -> Result<()> {
    let asked = peer.asked();
    let complete = keeper.picker().is_complete();
    println!(rt; "asked for {asked} blocks, complete: {complete}")?;
    let digest = hex::encode(rt.alloc(), Sha1::digest(store.content()).as_slice())?;
    println!(rt; "sha1 {digest}")?;
    Ok(())
}

/// All that a worker does for its peer, from the handshakes to the end of the connection.
fn download(
    alloc: Global,
    keeper: &mut Keeper,
    worker: u32,
    peer: &mut Peer,
    store: &mut Store,
) -> Result<()> {
    let mut rng = Lcg64Xsh32::new(0, u64::from(worker));
    let shown = Bitfield::from_wire(alloc, &SHOWN, 2)?;
    keeper.tell(alloc, worker, Told::Join)?;
    keeper.tell(alloc, worker, Told::Bits(&shown))?;
    keeper.tell(alloc, worker, Told::Unchoke)?;
    ask(alloc, keeper, worker, &mut rng, peer)?;
    'answers: for _ in 0..MOST_ANSWERS {
        let Some((block, bytes)) = peer.answer()? else {
            break;
        };
        receive(alloc, keeper, worker, block, bytes, store)?;
        ask(alloc, keeper, worker, &mut rng, peer)?;
    }
    keeper.tell(alloc, worker, Told::Leave)?;
    Ok(())
}

/// Tells the keeper of a block that came, has the piece checked that it completes, and stores a piece that is had.
fn receive(
    alloc: Global,
    keeper: &mut Keeper,
    worker: u32,
    block: Block,
    bytes: Bytes,
    store: &mut Store,
) -> Result<()> {
    let reply = keeper.arrived(alloc, worker, block.piece, block.begin, bytes)?;
    if reply == Reply::Completed {
        let settled = keeper.settle_now(worker, block.piece);
        store.write(block.piece, &settled.blocks);
    }
    Ok(())
}

/// Asks the peer for what the keeper says, and takes back what it says.
fn ask(
    alloc: Global,
    keeper: &mut Keeper,
    worker: u32,
    rng: &mut Lcg64Xsh32,
    peer: &mut Peer,
) -> Result<()> {
    'asks: for _ in 0..MOST_ASKS {
        match keeper.tell(alloc, worker, Told::Next(rng.next_u64()))? {
            Reply::Request(block) => peer.request(block)?,
            Reply::Cancel(block) => peer.cancel(block),
            _ => break,
        }
    }
    Ok(())
}

/// Tells a new keeper what is stored, as a peer that shows nothing would bring it.
fn resume(
    alloc: Global,
    keeper: &mut Keeper,
    worker: u32,
    torrent: &Torrent,
    store: &Store,
) -> Result<()> {
    keeper.tell(alloc, worker, Told::Join)?;
    for piece in 0..torrent.piece_count() {
        for index in 0..torrent.block_count(piece) {
            let block = torrent.block(piece, index);
            let bytes = store.read(&block);
            let begin = block.begin;
            keeper.tell(
                alloc,
                worker,
                Told::Arrived {
                    piece,
                    begin,
                    bytes,
                },
            )?;
        }
        let _settled = keeper.settle_now(worker, piece);
    }
    keeper.tell(alloc, worker, Told::Leave)?;
    Ok(())
}
