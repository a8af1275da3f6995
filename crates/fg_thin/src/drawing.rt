//! The losses that are drawn for a sample.
ghost use Rattle.std.specs.Prelude.{◌≡◌, ◌≤◌, IfOk};
ghost use Rattle.fg_thin.specs.Drawn.{drawn_drops, sample_layout, sample_settings};
ghost use Rattle.fg_shape.specs.Losses.{MayLose};
ghost use Rattle.fg_thin.specs.Thinned.{media_number};

use fg_shape::{Drops, Layout, Losses, Settings};
use rand_core::utils::NextWord;
use rand_pcg::Lcg64Xsh32;
use std::alloc::{AllocError, Global};

/// Which of the generator's streams the losses are drawn from.
const STREAM: u64 = 55;

/// The settings that a sample is encoded with.
pub fn sample_settings() -> Settings
    ensures { result ≡ sample_settings }
{
    Settings {
        layout: Layout {
            l: 10,
            d: 10,
            rows: true,
            staggered: false,
        },
        packets: 7,
        rate: 10_000_000,
        port: 5_000,
        seq: 0,
        ssrc: 0,
        stamp: 0,
    }
}

/// How many records the encoding of a sample of so many datagrams, 1 to 20,000, has, and which of them are left out: each
/// but the first with a probability of about `loss` percent, 0 to 20.
///
/// # Errors
///
/// Where there is no memory.
pub fn drawn(
    alloc: Global,
    seed: u64,
    datagrams: u32,
    loss: u32,
) -> Result<(u64, Losses), AllocError>
    requires datagrams { (1 ≤ datagrams) × (datagrams ≤ 20000) }
    requires loss { loss ≤ 20 }
    ensures records { IfOk result (λ drawn. drawn.0 ≡ media_number sample_layout datagrams) }
    ensures drops { IfOk result (λ drawn. drawn.1.drops ≡ drawn_drops seed loss drawn.0) }
    ensures every { IfOk result (λ drawn. drawn.1.every ≡ 0) }
    ensures few { IfOk result (λ drawn. MayLose drawn.1) }
{
    let records = count_records(datagrams);
    let drops = draw_drops(alloc, seed, loss, records)?;
    Ok((records, Losses { drops, every: 0 }))
}

/// How many records a sample of so many datagrams has: one for each slot, for each column that ends at one of them, in the
/// last of ten rows of ten, and for each row.
fn count_records(datagrams: u32) -> u64
    requires { datagrams ≤ 20000 }
    ensures count { result ≡ media_number sample_layout datagrams }
    ensures some { datagrams ≤ result }
    ensures few { result ≤ 24000 }
{
    fg_encode::laws::ends_are_the_layouts();
    fg_shape::laws::each_slot_has_its_number();
    let slots = u64::from(datagrams);
    let columns = 10 * (slots / 100) + (slots % 100).saturating_sub(90);
    slots + columns + slots / 10
}

/// Draws which records are left out, of so many in all.
fn draw_drops(alloc: Global, seed: u64, loss: u32, records: u64) -> Result<Drops, AllocError>
    requires { 1 ≤ records }
    ensures { IfOk result (λ drops. drops ≡ drawn_drops seed loss records) }
{
    let mut generator = Lcg64Xsh32::new(seed, STREAM);
    let mut drops = Drops::new(alloc);
    for number in 1..records {
        if generator.next_word() % 100 < loss {
            drops.add(number)?;
        }
    }
    Ok(drops)
}
