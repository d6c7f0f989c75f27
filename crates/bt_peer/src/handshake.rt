//! What a session says of itself before anything else.

ghost use Rattle.std.specs.Prelude.{◌≡◌, ◌+◌, ◌/◌, ◌%◌, ◌<◌};
ghost use Rattle.bt_peer.specs.Writer.{greeting as greeting_of, peer_id as peer_id_of};

use bt_wire::Hello;

/// The handshake of a worker's session: no extensions, and a peer id that tells our client and the worker.
pub fn greeting(infohash: &[u8; 20], worker: u32) -> [u8; 68]
    ensures { result ≡ greeting_of infohash.now worker }
{
    let hello = Hello {
        reserved: [0; 8],
        infohash: *infohash,
        peer_id: peer_id(worker),
    };
    hello.write()
}

/// `-PP0001-`, and the worker's number in twelve digits.
fn peer_id(worker: u32) -> [u8; 20]
    ensures { result ≡ peer_id_of worker }
{
    let n = u64::from(worker);
    [
        b'-',
        b'P',
        b'P',
        b'0',
        b'0',
        b'0',
        b'1',
        b'-',
        digit(n, 100_000_000_000),
        digit(n, 10_000_000_000),
        digit(n, 1_000_000_000),
        digit(n, 100_000_000),
        digit(n, 10_000_000),
        digit(n, 1_000_000),
        digit(n, 100_000),
        digit(n, 10_000),
        digit(n, 1_000),
        digit(n, 100),
        digit(n, 10),
        digit(n, 1),
    ]
}

/// The decimal digit of this unit: 1 for the last, 10 for the one before it.
fn digit(n: u64, unit: u64) -> u8
    requires { 0 < unit }
    ensures { result ≡ 48 + n / unit % 10 }
{
    b'0' + (n / unit % 10) as u8
}
