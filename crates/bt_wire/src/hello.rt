//! The handshake.

ghost use Rattle.std.specs.Prelude.{◌≡◌, ◌≢◌, take, IfOk, MatchResult};

use crate::message::WireFault;

/// The handshake, less the protocol's name in front of it.
#[derive(Clone, Copy, Debug, PartialEq, Eq)]
pub struct Hello {
    /// Eight bytes by which clients tell extensions. Any are accepted.
    pub reserved: [u8; 8],
    pub infohash: [u8; 20],
    pub peer_id: [u8; 20],
}

impl Hello {
    ghost use Rattle.bt_wire.specs.Messages.{handshake, protocol};
    ghost use Rattle.bt_wire.specs.declared.message.WireFault.TheVariants.{BadHandshake};

    /// What these 68 bytes say, where they begin with the protocol's name.
    pub fn read(bytes: &[u8; 68]) -> Result<Hello, WireFault>
        ensures ok { IfOk result (λ hello. bytes.now ≡ handshake hello) }
        ensures err { MatchResult result
            (λ _. take 20 bytes.now ≡ protocol)
            (λ e. (e ≡ BadHandshake) × (take 20 bytes.now ≢ protocol)) }
    {
        let (front, rest) = bytes.split_at(20);
        if front != b"\x13BitTorrent protocol".as_slice() {
            return Err(WireFault::BadHandshake);
        }
        let (first, rest) = rest.split_at(8);
        let (second, third) = rest.split_at(20);
        let mut reserved = [0; 8];
        reserved.copy_from_slice(first);
        let mut infohash = [0; 20];
        infohash.copy_from_slice(second);
        let mut peer_id = [0; 20];
        peer_id.copy_from_slice(third);
        Ok(Hello {
            reserved,
            infohash,
            peer_id,
        })
    }

    /// The handshake in full.
    pub fn write(&self) -> [u8; 68]
        ensures { result ≡ handshake self.now }
    {
        let mut bytes = [0; 68];
        let (front, rest) = bytes.split_at_mut(20);
        front.copy_from_slice(b"\x13BitTorrent protocol");
        let (reserved, rest) = rest.split_at_mut(8);
        reserved.copy_from_slice(&self.reserved);
        let (infohash, peer_id) = rest.split_at_mut(20);
        infohash.copy_from_slice(&self.infohash);
        peer_id.copy_from_slice(&self.peer_id);
        bytes
    }
}
