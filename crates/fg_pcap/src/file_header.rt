//! The header of a capture.
ghost use Rattle.std.specs.Prelude.{◌≡◌, ◌≤◌, ◌++◌, ◌↔◌, length, take, IsTrue, IfOk, IfErr, IfSome, IfNone};
ghost use Rattle.fg_pcap.specs.Capture.{HasMagic, HasVersion, IsEthernet, IsFileHeader, BreaksAt, four_bytes, two_bytes, magic};

/// How many bytes a file header has.
pub(crate) const FILE_HEADER: usize = 24;

/// The order of the bytes of a capture's numbers.
#[derive(Clone, Copy)]
pub enum ByteOrder {
    /// The highest byte first.
    HighestFirst,
    /// The lowest byte first.
    LowestFirst,
}

/// What the fractions of seconds count in a capture.
#[derive(Clone, Copy)]
pub enum TimeUnit {
    /// Millionths of a second.
    Microseconds,
    /// Thousandths of a millionth.
    Nanoseconds,
}

/// How the numbers of a capture are read.
#[derive(Clone, Copy)]
pub(crate) struct Format {
    /// In which order their bytes are.
    pub(crate) order: ByteOrder,
    /// What fractions count.
    pub(crate) unit: TimeUnit,
}

/// How the capture of the file header at the front of these bytes is to be read; or the place of the first field that is
/// wrong: the magic, the version or the link type.
pub(crate) fn read_file_header(bytes: &[u8]) -> Result<Format, u64>
    requires { FILE_HEADER ≤ length bytes.now }
    ensures found { IfOk result (λ format.
        IsFileHeader format.order format.unit (take FILE_HEADER bytes.now)) }
    ensures breaks { IfErr result (BreaksAt (take FILE_HEADER bytes.now)) }
    ensures place { IfErr result (λ place. place ≤ 20) }
{
    read_fields(&bytes[..FILE_HEADER])
}

/// The same of the bytes of the file header alone.
fn read_fields(header: &[u8]) -> Result<Format, u64>
    requires { length header.now ≡ FILE_HEADER }
    ensures found { IfOk result (λ format. IsFileHeader format.order format.unit header.now) }
    ensures breaks { IfErr result (BreaksAt header.now) }
    ensures place { IfErr result (λ place. place ≤ 20) }
{
    let Some(format) = read_magic(header) else {
        return Err(0);
    };
    if header[4..8] != version_bytes(format.order)[..] {
        return Err(4);
    }
    if header[20..24] != four_bytes(format.order, 1)[..] {
        return Err(20);
    }
    Ok(format)
}

/// The byte order and the unit that the magic says, if it is one.
fn read_magic(header: &[u8]) -> Option<Format>
    requires { 4 ≤ length header.now }
    ensures found { IfSome result (λ format. HasMagic format.order format.unit header.now) }
    ensures none { IfNone result ((order : ByteOrder) (unit : TimeUnit)
        → ¬ HasMagic order unit header.now) }
{
    if let Some(unit) = read_unit(header, ByteOrder::HighestFirst) {
        return Some(Format {
            order: ByteOrder::HighestFirst,
            unit,
        });
    }
    let unit = read_unit(header, ByteOrder::LowestFirst)?;
    Some(Format {
        order: ByteOrder::LowestFirst,
        unit,
    })
}

/// The unit that the magic says in this byte order, if it is one.
fn read_unit(header: &[u8], order: ByteOrder) -> Option<TimeUnit>
    requires { 4 ≤ length header.now }
    ensures found { IfSome result (λ unit. HasMagic order unit header.now) }
    ensures none { IfNone result ((unit : TimeUnit) → ¬ HasMagic order unit header.now) }
{
    if has_magic(header, order, TimeUnit::Microseconds) {
        return Some(TimeUnit::Microseconds);
    }
    if has_magic(header, order, TimeUnit::Nanoseconds) {
        return Some(TimeUnit::Nanoseconds);
    }
    None
}

/// Whether the file header begins with this magic.
fn has_magic(header: &[u8], order: ByteOrder, unit: TimeUnit) -> bool
    requires { 4 ≤ length header.now }
    ensures { IsTrue result ↔ HasMagic order unit header.now }
{
    header[..4] == four_bytes(order, magic(unit))[..]
}

/// The magic of a file whose fractions count this unit.
fn magic(unit: TimeUnit) -> u32
    ensures { result ≡ magic unit }
{
    match unit {
        TimeUnit::Microseconds => 0xa1b2_c3d4,
        TimeUnit::Nanoseconds => 0xa1b2_3c4d,
    }
}

/// The bytes of a number.
fn four_bytes(order: ByteOrder, number: u32) -> [u8; 4]
    ensures { result ≡ four_bytes order number }
{
    match order {
        ByteOrder::HighestFirst => number.to_be_bytes(),
        ByteOrder::LowestFirst => number.to_le_bytes(),
    }
}

/// The bytes of the version, 2.4.
fn version_bytes(order: ByteOrder) -> [u8; 4]
    ensures { result ≡ two_bytes order 2 ++ two_bytes order 4 }
{
    match order {
        ByteOrder::HighestFirst => [0, 2, 0, 4],
        ByteOrder::LowestFirst => [2, 0, 4, 0],
    }
}
