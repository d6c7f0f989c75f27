//! Hashing with no desk and no handle.
ghost use Rattle.std.specs.Prelude.{◌≡◌, length};
ghost use Rattle.std.specs.List.{concat};
ghost use Rattle.sha1.specs.Sha1.{sha1};
ghost use Rattle.bt_c.specs.Digests.{PutsDigests, TellsDigests, digests_of};

use super::tell::tell_done;
use crate::digest::Digest;
use crate::fault::Fault;
use bt_check::hash_four;
use sha1::Sha1;

/// Writes the SHA-1 of the message. Takes no memory.
#[unsafe(no_mangle)]
pub extern "C" fn piecepick_hash(message: &[u8], digest: &mut Digest)
    ensures { digest.new.bytes ≡ sha1 message.now }
{
    digest.bytes = Sha1::digest(message);
}

/// Writes the digests into the buffer, one behind the other.
fn put_digests(digests: &[[u8; 20]; 4], buffer: &mut [u8])
    requires { length buffer.old ≡ 80 }
    ensures { buffer.new ≡ concat digests.now }
{
    for i in 0..4 {
        buffer[20 * i..20 * i + 20].copy_from_slice(&digests[i]);
    }
}

/// Hashes the four messages into the buffer.
fn hash_into(
    first: &[u8],
    second: &[u8],
    third: &[u8],
    fourth: &[u8],
    digests: &mut [u8],
) -> Result<(), Fault>
    ensures { PutsDigests (digests_of first.now second.now third.now fourth.now) digests.old digests.new result }
{
    if digests.len() != 80 {
        return Err(Fault::Room);
    }
    put_digests(&hash_four(first, second, third, fourth), digests);
    Ok(())
}

/// Writes the SHA-1 of each of four messages into a buffer of 80 bytes, in their order. The lengths may be any. Four messages of one length
/// are hashed side by side, which is faster. Takes no memory.
#[unsafe(no_mangle)]
pub extern "C" fn piecepick_hash_four(
    first: &[u8],
    second: &[u8],
    third: &[u8],
    fourth: &[u8],
    digests: &mut [u8],
) -> u32
    ensures { TellsDigests (digests_of first.now second.now third.now fourth.now) digests.old digests.new result }
{
    tell_done(hash_into(first, second, third, fourth, digests))
}
