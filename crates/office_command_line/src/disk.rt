//! The disk that the variable OFFICE_DISK names.
ghost use Rattle.std.specs.Prelude.{◌≡◌, None, Some, option_map, IfOk, OnErr};
ghost use Rattle.office_command_line.specs.Disks.{disk_named};

use std::fmt;

/// What a run supposes of the disk: what a crash leaves of a sector that was being written.
#[derive(Clone, Copy, Debug)]
pub enum Disk {
    /// Nothing is supposed: any bytes. Each commit syncs twice.
    Any,
    /// The device finishes each sector that it begins, as SQLite supposes: each byte is the old or
    /// the new one. Most commits sync once.
    PowerSafe,
}

/// A value of OFFICE_DISK that names no disk. Its text says what the variable may be.
#[derive(Clone, Copy)]
pub struct UnknownDisk;

/// The disk that the variable OFFICE_DISK names, `any` or `powersafe`; where it is not set, any.
/// Each other value, as an empty one, is an `UnknownDisk`.
pub fn disk_of(value: Option<&str>) -> Result<Disk, UnknownDisk>
    ensures ok { IfOk result
        (λ disk. disk_named (option_map (λ v. v.now) value.entry) ≡ Some disk) }
    ensures err { OnErr result (disk_named (option_map (λ v. v.now) value.entry) ≡ None) }
{
    match value {
        None | Some("any") => Ok(Disk::Any),
        Some("powersafe") => Ok(Disk::PowerSafe),
        Some(_) => Err(UnknownDisk),
    }
}

impl fmt::Display for UnknownDisk {
    ghost use Rattle.std.specs.Prelude.{Some};
    ghost use Rattle.office_command_line.specs.Disks.{disk_line};

    ghost output = { λ _. Some disk_line };

    fn fmt<W: fmt::Write>(&self, f: &mut fmt::Formatter<W>) -> fmt::Result {
        f.write_str("OFFICE_DISK must be any or powersafe")
    }
}
