//! The stream that is made of a seed.
ghost use Rattle.std.specs.Prelude.{◌≡◌, ◌≢◌, ◌<◌, ◌≤◌, ◌↔◌, ◌++◌, [], length, take, min, IfOk, IsOk, IsTrue, Some};
ghost use Rattle.std.specs.Io.KnownBytes.{IsAtEnd};
ghost use Rattle.rand_pcg.specs.Lcg.{advance};
ghost use Rattle.rand_pcg.specs.Pcg.{multiplier_64};
ghost use Rattle.fg_io.specs.Source.{Gives};
ghost use Rattle.fg_thin.specs.Made.{made_packet, made_stream};

use fg_io::{Failed, Source};
use fg_ts::{PACKET_LENGTH, SYNC_BYTE};
use rand_core::utils::fill_bytes_via_u32;
use rand_pcg::Lcg64Xsh32;
use std::marker::Model;

/// The packets of a datagram.
const PACKETS: u32 = 7;

/// Which of the generator's streams the packets are drawn from.
const STREAM: u64 = 54;

/// The made stream of a seed, as a source. It holds one packet, takes no memory and never fails.
///
/// Contracts see the bytes that are left.
#[derive(Drop)]
pub struct Made {
    generator: Lcg64Xsh32,
    packet: [u8; PACKET_LENGTH],
    given: usize,
    made: u32,
    packets: u32,
}

impl Model for Made {
    ghost use Rattle.std.specs.Prelude.{◌≡◌, ℕ, ◌-◌, ◌≤◌, ◌++◌, List, drop, length};
    ghost use Rattle.fg_thin.specs.Made.{made_packets};

    ghost Value = { List ℕ };

    ghost view = { λ a. drop a.given a.packet
        ++ made_packets a.generator a.made (a.packets - a.made) };

    ghost invariant = { λ a.
        (a.given ≤ 188) × (a.made ≤ a.packets) × (length a.packet ≡ 188) };
}

impl Made {
    /// The stream of a seed that has seven packets for each of so many datagrams, 1 to 20,000.
    pub fn new(seed: u64, datagrams: u32) -> Made
        requires { (1 ≤ datagrams) × (datagrams ≤ 20000) }
        ensures { result ≡ made_stream seed datagrams }
    {
        Made {
            generator: Lcg64Xsh32::new(seed, STREAM),
            packet: [0; PACKET_LENGTH],
            given: PACKET_LENGTH,
            made: 0,
            packets: PACKETS * datagrams,
        }
    }

    /// Whether all bytes were given.
    fn is_at_end(&self) -> bool
        ensures { IsTrue result ↔ (self.now ≡ []) }
    {
        self.given == PACKET_LENGTH && self.made == self.packets
    }

    /// Gives bytes of one packet to the front of `into`, and answers how many.
    fn give(&mut self, into: &mut [u8]) -> usize
        requires room { 0 < length into.old }
        requires more { self.old ≢ [] }
        ensures some { 0 < result }
        ensures within { result ≤ length into.new }
        ensures bytes { self.old ≡ take result into.new ++ self.new }
    {
        if self.given == PACKET_LENGTH {
            make_packet(&mut self.packet, &mut self.generator, self.made);
            self.made += 1;
            self.given = 0;
        }
        let count = into.len().min(PACKET_LENGTH - self.given);
        into[..count].copy_from_slice(&self.packet[self.given..self.given + count]);
        self.given += count;
        count
    }
}

/// Makes the packet with this number.
fn make_packet(packet: &mut [u8; PACKET_LENGTH], generator: &mut Lcg64Xsh32, number: u32)
    ensures packet { packet.new ≡ made_packet generator.old number }
    ensures generator { generator.new ≡ advance 64 multiplier_64 46 generator.old }
{
    packet[0] = SYNC_BYTE;
    packet[1] = 0x01;
    packet[2] = 0x00;
    packet[3] = 0x10 + (number % 16) as u8;
    fill_bytes_via_u32(generator, &mut packet[4..]);
}

impl Source for Made {
    ghost left = { λ made. Some made };

    ghost faults = { λ _. 0 };

    ghost Fixed = { Unit {0} };

    ghost fixed = { λ _. tt };

    fn read(&mut self, into: &mut [u8]) -> Result<usize, Failed>
        // What each source ensures of a call that is Ok, as each one is.
        ensures bound { IfOk result (λ count. count ≤ length into.new) }
        ensures gives { IfOk result (λ count. Gives (Some self.old) (take count into.new)
            (Some self.new)) }
        ensures end { IfOk result (λ count. count ≡ 0 → 0 < length into.new
            → IsAtEnd (Some self.new)) }
        ensures ok { IsOk result }

        // It gives all that fits.
        ensures count { IfOk result (λ count. count ≡ min (length into.old) (length self.old)) }
    {
        let mut count = 0;
        while count < into.len() && !self.is_at_end() {
            count += self.give(&mut into[count..]);
        }
        Ok(count)
    }
}
