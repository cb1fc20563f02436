//! Identity and base SDRAM configuration: bytes 0 to 7, 234 and 235 of an image.
ghost use Rattle.std.specs.Prelude.{◌≡◌, ◌+◌, ◌/◌, ◌%◌, eqb};
ghost use Rattle.decoders.specs.Codes.{size_of, revision_of, device_of, module_of, density_of, package_of, io_width_of, bank_groups_of, banks_of, bus_width_of, channels_of};
ghost use Rattle.decoders.specs.Codes.{device_code, module_code, gigabits_in, bits_in, groups_in, banks_in, package_code};
ghost use Rattle.decoders.specs.Identity.{identity_bytes_of, base_of, sdram_of, organization_of, identity_of};

use reading::Refusal;

// Byte offsets in the image.
const OFF_SPD_SIZE: usize = 0;

const OFF_SPD_REVISION: usize = 1;

const OFF_DEVICE_TYPE: usize = 2;

const OFF_MODULE_TYPE: usize = 3;

const OFF_FIRST_DENSITY_PACKAGE: usize = 4;

const OFF_FIRST_ADDRESSING: usize = 5;

const OFF_FIRST_IO_WIDTH: usize = 6;

const OFF_FIRST_BANK_GROUPS: usize = 7;

const OFF_MODULE_ORGANIZATION: usize = 234;

const OFF_MEMORY_CHANNEL_BUS_WIDTH: usize = 235;

// What is read: where each range starts and how many bytes it has; and how many bytes there are up to the last of them.
// Kept: `as`, since a constant may not call `usize::from`.
const IDENTITY_RANGES: [(u16, u16); 2] = [(0, 8), (234, 2)];

const IDENTITY_BYTES: usize = IDENTITY_RANGES[1].0 as usize + IDENTITY_RANGES[1].1 as usize;

/// SPD revision, from byte 1: two plain nibbles.
#[derive(Clone, Copy, Debug, PartialEq, Eq)]
pub struct SpdRevision {
    pub major: u8,
    pub minor: u8,
}

/// DRAM device type, from byte 2. An image is decoded only where it is Ddr5.
#[derive(Clone, Copy, Debug, PartialEq, Eq)]
pub enum DeviceType {
    Ddr3,
    Ddr4,
    Ddr5,
    Lpddr5,
}

impl DeviceType {
    /// The byte that stands for this device type.
    pub fn code(self) -> u8
        ensures { result ≡ device_code self }
    {
        match self {
            DeviceType::Ddr3 => 0x0B,
            DeviceType::Ddr4 => 0x0C,
            DeviceType::Ddr5 => 0x12,
            DeviceType::Lpddr5 => 0x13,
        }
    }
}

/// Base module type, from the low nibble of byte 3.
#[derive(Clone, Copy, Debug, PartialEq, Eq)]
pub enum ModuleType {
    Rdimm,
    Udimm,
    Sodimm,
    Lrdimm,
    Cudimm,
    Csoudimm,
    Mrdimm,
    Camm2,
    Ddimm,
    SolderDown,
}

impl ModuleType {
    /// The code that stands for this module type.
    pub fn code(self) -> u8
        ensures { result ≡ module_code self }
    {
        match self {
            ModuleType::Rdimm => 1,
            ModuleType::Udimm => 2,
            ModuleType::Sodimm => 3,
            ModuleType::Lrdimm => 4,
            ModuleType::Cudimm => 5,
            ModuleType::Csoudimm => 6,
            ModuleType::Mrdimm => 7,
            ModuleType::Camm2 => 8,
            ModuleType::Ddimm => 10,
            ModuleType::SolderDown => 11,
        }
    }
}

/// SDRAM density per die, from bits 4-0 of byte 4.
#[derive(Clone, Copy, Debug, PartialEq, Eq)]
pub enum DensityPerDie {
    Gb4,
    Gb8,
    Gb12,
    Gb16,
    Gb24,
    Gb32,
    Gb48,
    Gb64,
}

impl DensityPerDie {
    /// Density of a single die in gigabits.
    pub fn gigabits(self) -> u16
        ensures { result ≡ gigabits_in self }
    {
        match self {
            DensityPerDie::Gb4 => 4,
            DensityPerDie::Gb8 => 8,
            DensityPerDie::Gb12 => 12,
            DensityPerDie::Gb16 => 16,
            DensityPerDie::Gb24 => 24,
            DensityPerDie::Gb32 => 32,
            DensityPerDie::Gb48 => 48,
            DensityPerDie::Gb64 => 64,
        }
    }
}

/// SDRAM I/O width, from bits 7-5 of byte 6.
#[derive(Clone, Copy, Debug, PartialEq, Eq)]
pub enum IoWidth {
    X4,
    X8,
    X16,
    X32,
}

impl IoWidth {
    /// Data pins per device.
    pub fn bits(self) -> u16
        ensures { result ≡ bits_in self }
    {
        match self {
            IoWidth::X4 => 4,
            IoWidth::X8 => 8,
            IoWidth::X16 => 16,
            IoWidth::X32 => 32,
        }
    }
}

/// Bank groups per die, from bits 7-5 of byte 7.
#[derive(Clone, Copy, Debug, PartialEq, Eq)]
pub enum BankGroups {
    One,
    Two,
    Four,
    Eight,
}

impl BankGroups {
    /// Number of bank groups.
    pub fn count(self) -> u8
        ensures { result ≡ groups_in self }
    {
        match self {
            BankGroups::One => 1,
            BankGroups::Two => 2,
            BankGroups::Four => 4,
            BankGroups::Eight => 8,
        }
    }
}

/// Banks within each bank group, from bits 2-0 of byte 7.
#[derive(Clone, Copy, Debug, PartialEq, Eq)]
pub enum BanksPerBankGroup {
    One,
    Two,
    Four,
}

impl BanksPerBankGroup {
    /// Number of banks per bank group.
    pub fn count(self) -> u8
        ensures { result ≡ banks_in self }
    {
        match self {
            BanksPerBankGroup::One => 1,
            BanksPerBankGroup::Two => 2,
            BanksPerBankGroup::Four => 4,
        }
    }
}

/// SDRAM package construction, from bits 7-5 of byte 4.
#[derive(Clone, Copy, Debug, PartialEq, Eq)]
pub enum PackageType {
    /// One die.
    Monolithic,
    /// Two dies in one package, not stacked (DDP).
    DualDie,
    /// A stack; its dies are counted apart.
    ThreeDs,
}

impl PackageType {
    /// The number by which a report names this package.
    pub fn code(self) -> u8
        ensures { result ≡ package_code self }
    {
        match self {
            PackageType::Monolithic => 1,
            PackageType::DualDie => 2,
            PackageType::ThreeDs => 3,
        }
    }
}

/// The decoded identity and base SDRAM configuration of an image.
#[derive(Clone, Copy, Debug, PartialEq, Eq)]
pub struct IdentityAndBase {
    pub spd_bytes_total: u16,
    pub spd_revision: SpdRevision,
    pub device_type: DeviceType,
    pub module_type: ModuleType,
    pub hybrid: bool,
    pub density_per_die: DensityPerDie,
    pub package_type: PackageType,
    pub die_count: u8,
    pub row_address_bits: u8,
    pub column_address_bits: u8,
    pub io_width: IoWidth,
    pub bank_groups: BankGroups,
    pub banks_per_bank_group: BanksPerBankGroup,
    pub package_ranks_per_channel: u8,
    pub rank_mix_asymmetric: bool,
    pub channels_per_dimm: u8,
    pub primary_bus_width_bits: u16,
}

/// The ten bytes that it is read from, under the names of their offsets.
#[derive(Clone, Copy, Debug, PartialEq, Eq)]
pub struct IdentityBytes {
    pub spd_size: u8,
    pub spd_revision: u8,
    pub device_type: u8,
    pub module_type: u8,
    pub first_density_package: u8,
    pub first_addressing: u8,
    pub first_io_width: u8,
    pub first_bank_groups: u8,
    pub module_organization: u8,
    pub memory_channel_bus_width: u8,
}

/// Its three parts: of bytes 0 to 3, 4 to 7, and 234 and 235.
#[derive(Clone, Copy, Debug, PartialEq, Eq)]
pub struct Base {
    pub spd_bytes_total: u16,
    pub spd_revision: SpdRevision,
    pub device_type: DeviceType,
    pub module_type: ModuleType,
    pub hybrid: bool,
}

#[derive(Clone, Copy, Debug, PartialEq, Eq)]
pub struct Sdram {
    pub density_per_die: DensityPerDie,
    pub package_type: PackageType,
    pub die_count: u8,
    pub row_address_bits: u8,
    pub column_address_bits: u8,
    pub io_width: IoWidth,
    pub bank_groups: BankGroups,
    pub banks_per_bank_group: BanksPerBankGroup,
}

#[derive(Clone, Copy, Debug, PartialEq, Eq)]
pub struct Organization {
    pub package_ranks_per_channel: u8,
    pub rank_mix_asymmetric: bool,
    pub channels_per_dimm: u8,
    pub primary_bus_width_bits: u16,
}

// A package and the dies in it.
#[derive(Clone, Copy, Debug, PartialEq, Eq)]
struct Package {
    package_type: PackageType,
    die_count: u8,
}

/// The identity and base configuration of an image. The length is tested first, then the codes in document 01's order, part by part.
#[inline(always)]
#[tactic(auto, using(crate::proofs::Parts::in_parts))]
pub fn decode_identity_and_base(image: &[u8]) -> Result<IdentityAndBase, Refusal>
    ensures { result ≡ identity_of image.now }
{
    let bytes = identity_bytes(image)?;
    let base = decode_base(bytes)?;
    let sdram = decode_sdram(bytes)?;
    let organization = decode_organization(bytes)?;
    Ok(IdentityAndBase {
        spd_bytes_total: base.spd_bytes_total,
        spd_revision: base.spd_revision,
        device_type: base.device_type,
        module_type: base.module_type,
        hybrid: base.hybrid,
        density_per_die: sdram.density_per_die,
        package_type: sdram.package_type,
        die_count: sdram.die_count,
        row_address_bits: sdram.row_address_bits,
        column_address_bits: sdram.column_address_bits,
        io_width: sdram.io_width,
        bank_groups: sdram.bank_groups,
        banks_per_bank_group: sdram.banks_per_bank_group,
        package_ranks_per_channel: organization.package_ranks_per_channel,
        rank_mix_asymmetric: organization.rank_mix_asymmetric,
        channels_per_dimm: organization.channels_per_dimm,
        primary_bus_width_bits: organization.primary_bus_width_bits,
    })
}

/// The one test of the length, and the bytes.
#[inline(always)]
#[tactic(auto, using(reading::proofs::Reach::by_length), unfolding(crate::specs::Identity::identity_bytes_of))]
pub fn identity_bytes(image: &[u8]) -> Result<IdentityBytes, Refusal>
    ensures { result ≡ identity_bytes_of image.now }
{
    if image.len() < IDENTITY_BYTES {
        return Err(reading::truncated_in(image, &IDENTITY_RANGES));
    }
    Ok(IdentityBytes {
        spd_size: image[OFF_SPD_SIZE],
        spd_revision: image[OFF_SPD_REVISION],
        device_type: image[OFF_DEVICE_TYPE],
        module_type: image[OFF_MODULE_TYPE],
        first_density_package: image[OFF_FIRST_DENSITY_PACKAGE],
        first_addressing: image[OFF_FIRST_ADDRESSING],
        first_io_width: image[OFF_FIRST_IO_WIDTH],
        first_bank_groups: image[OFF_FIRST_BANK_GROUPS],
        module_organization: image[OFF_MODULE_ORGANIZATION],
        memory_channel_bus_width: image[OFF_MEMORY_CHANNEL_BUS_WIDTH],
    })
}

/// Bytes 0 to 3. A part is small enough to be compiled into each of its callers, which the whole is not.
#[inline(always)]
#[tactic(auto, unfolding(crate::specs::Identity::base_of))]
pub fn decode_base(bytes: IdentityBytes) -> Result<Base, Refusal>
    ensures { result ≡ base_of bytes }
{
    let spd_bytes_total = decode_spd_bytes_total(bytes.spd_size)?;
    let device_type = decode_device_type(bytes.device_type)?;
    let module_type = decode_module_type(bytes.module_type)?;
    Ok(Base {
        spd_bytes_total,
        spd_revision: decode_spd_revision(bytes.spd_revision),
        device_type,
        module_type,
        hybrid: decode_hybrid(bytes.module_type),
    })
}

/// Bytes 4 to 7.
#[inline(always)]
#[tactic(auto, unfolding(crate::specs::Identity::sdram_of))]
pub fn decode_sdram(bytes: IdentityBytes) -> Result<Sdram, Refusal>
    ensures { result ≡ sdram_of bytes }
{
    let density_per_die = decode_density_per_die(bytes.first_density_package)?;
    let package = decode_package(bytes.first_density_package)?;
    let io_width = decode_io_width(bytes.first_io_width)?;
    let bank_groups = decode_bank_groups(bytes.first_bank_groups)?;
    let banks_per_bank_group = decode_banks_per_bank_group(bytes.first_bank_groups)?;
    Ok(Sdram {
        density_per_die,
        package_type: package.package_type,
        die_count: package.die_count,
        row_address_bits: decode_row_address_bits(bytes.first_addressing),
        column_address_bits: decode_column_address_bits(bytes.first_addressing),
        io_width,
        bank_groups,
        banks_per_bank_group,
    })
}

/// Bytes 234 and 235.
#[inline(always)]
#[tactic(auto, unfolding(crate::specs::Identity::organization_of))]
pub fn decode_organization(bytes: IdentityBytes) -> Result<Organization, Refusal>
    ensures { result ≡ organization_of bytes }
{
    let primary_bus_width_bits = decode_primary_bus_width(bytes.memory_channel_bus_width)?;
    let channels_per_dimm = decode_channels_per_dimm(bytes.memory_channel_bus_width)?;
    Ok(Organization {
        package_ranks_per_channel: decode_package_ranks(bytes.module_organization),
        rank_mix_asymmetric: decode_rank_mix(bytes.module_organization),
        channels_per_dimm,
        primary_bus_width_bits,
    })
}

// Byte 0, bits 6-4: total size of the SPD device in bytes.
// Kept: a function for each field, and no `TryFrom`, since the byte's type is u8 for all and each refusal has its field's number.
#[tactic(auto, unfolding(crate::specs::Codes::size_of))]
fn decode_spd_bytes_total(byte0: u8) -> Result<u16, Refusal>
    ensures { result ≡ size_of (byte0 / 16 % 8) }
{
    match (byte0 >> 4) & 0x07 {
        1 => Ok(256),
        2 => Ok(512),
        3 => Ok(1024),
        4 => Ok(2048),
        value => Err(Refusal::UnknownEnum { field: 1, value }),
    }
}

// Byte 1: the revision, major in the high nibble.
fn decode_spd_revision(byte1: u8) -> SpdRevision
    ensures { result ≡ revision_of byte1 }
{
    SpdRevision {
        major: byte1 >> 4,
        minor: byte1 & 0x0F,
    }
}

// Byte 2, the whole of it: the device type.
#[tactic(auto, unfolding(crate::specs::Codes::device_of))]
fn decode_device_type(byte2: u8) -> Result<DeviceType, Refusal>
    ensures { result ≡ device_of byte2 }
{
    match byte2 {
        0x12 => Ok(DeviceType::Ddr5),
        value => Err(Refusal::NotDdr5(value)),
    }
}

// Byte 3, bits 3-0: the base module type.
#[tactic(auto, unfolding(crate::specs::Codes::module_of))]
fn decode_module_type(byte3: u8) -> Result<ModuleType, Refusal>
    ensures { result ≡ module_of (byte3 % 16) }
{
    match byte3 & 0x0F {
        0x01 => Ok(ModuleType::Rdimm),
        0x02 => Ok(ModuleType::Udimm),
        0x03 => Ok(ModuleType::Sodimm),
        0x04 => Ok(ModuleType::Lrdimm),
        0x05 => Ok(ModuleType::Cudimm),
        0x06 => Ok(ModuleType::Csoudimm),
        0x07 => Ok(ModuleType::Mrdimm),
        0x08 => Ok(ModuleType::Camm2),
        0x0A => Ok(ModuleType::Ddimm),
        0x0B => Ok(ModuleType::SolderDown),
        value => Err(Refusal::UnknownEnum { field: 2, value }),
    }
}

// Byte 3, bit 7: a hybrid module.
fn decode_hybrid(byte3: u8) -> bool
    ensures { result ≡ eqb (byte3 / 128 % 2) 1 }
{
    byte3 & 0x80 != 0
}

// Byte 4, bits 4-0: density per die.
#[tactic(auto, unfolding(crate::specs::Codes::density_of))]
fn decode_density_per_die(byte4: u8) -> Result<DensityPerDie, Refusal>
    ensures { result ≡ density_of (byte4 % 32) }
{
    match byte4 & 0x1F {
        0x01 => Ok(DensityPerDie::Gb4),
        0x02 => Ok(DensityPerDie::Gb8),
        0x03 => Ok(DensityPerDie::Gb12),
        0x04 => Ok(DensityPerDie::Gb16),
        0x05 => Ok(DensityPerDie::Gb24),
        0x06 => Ok(DensityPerDie::Gb32),
        0x07 => Ok(DensityPerDie::Gb48),
        0x08 => Ok(DensityPerDie::Gb64),
        value => Err(Refusal::UnknownEnum { field: 3, value }),
    }
}

// Byte 4, bits 7-5: the package and its dies.
#[tactic(auto, unfolding(crate::specs::Codes::package_of))]
fn decode_package(byte4: u8) -> Result<Package, Refusal>
    ensures { result ≡ package_of (byte4 / 32 % 8) }
{
    match (byte4 >> 5) & 0x07 {
        0 => Ok(Package {
            package_type: PackageType::Monolithic,
            die_count: 1,
        }),
        1 => Ok(Package {
            package_type: PackageType::DualDie,
            die_count: 2,
        }),
        2 => Ok(Package {
            package_type: PackageType::ThreeDs,
            die_count: 2,
        }),
        3 => Ok(Package {
            package_type: PackageType::ThreeDs,
            die_count: 4,
        }),
        4 => Ok(Package {
            package_type: PackageType::ThreeDs,
            die_count: 8,
        }),
        5 => Ok(Package {
            package_type: PackageType::ThreeDs,
            die_count: 16,
        }),
        value => Err(Refusal::UnknownEnum { field: 4, value }),
    }
}

// Byte 5, bits 4-0: row address bits, from 16.
fn decode_row_address_bits(byte5: u8) -> u8
    ensures { result ≡ 16 + byte5 % 32 }
{
    16 + (byte5 & 0x1F)
}

// Byte 5, bits 7-5: column address bits, from 10.
fn decode_column_address_bits(byte5: u8) -> u8
    ensures { result ≡ 10 + byte5 / 32 % 8 }
{
    10 + ((byte5 >> 5) & 0x07)
}

// Byte 6, bits 7-5: the I/O width.
#[tactic(auto, unfolding(crate::specs::Codes::io_width_of))]
fn decode_io_width(byte6: u8) -> Result<IoWidth, Refusal>
    ensures { result ≡ io_width_of (byte6 / 32 % 8) }
{
    match (byte6 >> 5) & 0x07 {
        0 => Ok(IoWidth::X4),
        1 => Ok(IoWidth::X8),
        2 => Ok(IoWidth::X16),
        3 => Ok(IoWidth::X32),
        value => Err(Refusal::UnknownEnum { field: 5, value }),
    }
}

// Byte 7, bits 7-5: bank groups.
#[tactic(auto, unfolding(crate::specs::Codes::bank_groups_of))]
fn decode_bank_groups(byte7: u8) -> Result<BankGroups, Refusal>
    ensures { result ≡ bank_groups_of (byte7 / 32 % 8) }
{
    match (byte7 >> 5) & 0x07 {
        0 => Ok(BankGroups::One),
        1 => Ok(BankGroups::Two),
        2 => Ok(BankGroups::Four),
        3 => Ok(BankGroups::Eight),
        value => Err(Refusal::UnknownEnum { field: 6, value }),
    }
}

// Byte 7, bits 2-0: banks per bank group.
#[tactic(auto, unfolding(crate::specs::Codes::banks_of))]
fn decode_banks_per_bank_group(byte7: u8) -> Result<BanksPerBankGroup, Refusal>
    ensures { result ≡ banks_of (byte7 % 8) }
{
    match byte7 & 0x07 {
        0 => Ok(BanksPerBankGroup::One),
        1 => Ok(BanksPerBankGroup::Two),
        2 => Ok(BanksPerBankGroup::Four),
        value => Err(Refusal::UnknownEnum { field: 7, value }),
    }
}

// Byte 234, bits 5-3: package ranks per channel, from 1.
fn decode_package_ranks(byte234: u8) -> u8
    ensures { result ≡ 1 + byte234 / 8 % 8 }
{
    1 + ((byte234 >> 3) & 0x07)
}

// Byte 234, bit 6: an asymmetric rank mix.
fn decode_rank_mix(byte234: u8) -> bool
    ensures { result ≡ eqb (byte234 / 64 % 2) 1 }
{
    (byte234 >> 6) & 0x01 == 1
}

// Byte 235, bits 2-0: primary bus width per channel in bits.
#[tactic(auto, unfolding(crate::specs::Codes::bus_width_of))]
fn decode_primary_bus_width(byte235: u8) -> Result<u16, Refusal>
    ensures { result ≡ bus_width_of (byte235 % 8) }
{
    match byte235 & 0x07 {
        0 => Ok(8),
        1 => Ok(16),
        2 => Ok(32),
        3 => Ok(64),
        value => Err(Refusal::UnknownEnum { field: 8, value }),
    }
}

// Byte 235, bits 7-5: channels per DIMM.
#[tactic(auto, unfolding(crate::specs::Codes::channels_of))]
fn decode_channels_per_dimm(byte235: u8) -> Result<u8, Refusal>
    ensures { result ≡ channels_of (byte235 / 32 % 8) }
{
    match (byte235 >> 5) & 0x07 {
        0 => Ok(1),
        1 => Ok(2),
        2 => Ok(4),
        3 => Ok(8),
        value => Err(Refusal::UnknownEnum { field: 9, value }),
    }
}
