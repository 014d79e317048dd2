// Why a lookup is refused.
ghost use Rattle.std.specs.Prelude.{◌≡◌};
ghost use Rattle.search.specs.Refusal.{number_of};

use json_string::Fault;
use list::Full;
use path::TooLong;
use std::fmt;

/// Why a lookup is refused. The first check that fails tells, and then the search where it first meets a reason.
#[derive(Clone, Copy, PartialEq, Eq, Debug)]
pub enum Refusal {
    /// A directory or a package would have to be searched, which this version does not do yet.
    Unfinished,
    /// The path buffer has fewer than 1,024 bytes, or the work area fewer than 32,768.
    ShortMemory,
    /// The containing path is not UTF-8, not normal, or has more than 512 bytes.
    ContainingPath,
    /// The specifier is not UTF-8, or has more than 512 bytes.
    SpecifierText,
    /// The specifier has no path part.
    EmptySpecifier,
    /// The path part begins with `/` and is not normal.
    AbsolutePath,
    /// The path part begins with `#`.
    PackageImport,
    /// A path that would be asked for has more than 1,024 bytes.
    LongPath,
    /// The trail has no room for a new question.
    TrailFull,
    /// A manifest has more than 16,384 bytes, or is no JSON text; with the length of the longest beginning that some JSON
    /// text continues, or 16,384 where there are more.
    BrokenManifest(Fault),
    /// A ninth directory step would have to be opened inside eight others.
    TooDeep,
}

impl Refusal {
    /// The number of a refusal, 0 to 9 or 11.
    pub fn number(self) -> u8
        ensures number { result ≡ number_of self }
    {
        match self {
            Refusal::Unfinished => 0,
            Refusal::ShortMemory => 1,
            Refusal::ContainingPath => 2,
            Refusal::SpecifierText => 3,
            Refusal::EmptySpecifier => 4,
            Refusal::AbsolutePath => 5,
            Refusal::PackageImport => 6,
            Refusal::LongPath => 7,
            Refusal::TrailFull => 8,
            Refusal::BrokenManifest(_) => 9,
            Refusal::TooDeep => 11,
        }
    }
}

// A joined path is one that would be asked for.
impl From<TooLong> for Refusal {
    ghost use Rattle.std.specs.Prelude.{◌≡◌};
    ghost use Rattle.search.specs.declared.error.Refusal.TheVariants.{LongPath};

    ghost from_gives = { λ _ refusal. refusal ≡ LongPath };

    fn from(_too_long: TooLong) -> Refusal {
        Refusal::LongPath
    }
}

// Each path that is put together has room for 1,024 bytes.
impl From<Full> for Refusal {
    ghost use Rattle.std.specs.Prelude.{◌≡◌};
    ghost use Rattle.search.specs.declared.error.Refusal.TheVariants.{LongPath};

    ghost from_gives = { λ _ refusal. refusal ≡ LongPath };

    fn from(_full: Full) -> Refusal {
        Refusal::LongPath
    }
}

// Only manifests are read as JSON texts.
impl From<Fault> for Refusal {
    ghost use Rattle.std.specs.Prelude.{◌≡◌};
    ghost use Rattle.search.specs.declared.error.Refusal.TheVariants.{BrokenManifest};

    ghost from_gives = { λ fault refusal. refusal ≡ BrokenManifest fault };

    fn from(fault: Fault) -> Refusal {
        Refusal::BrokenManifest(fault)
    }
}

// The name that a program shows beside the number.
impl fmt::Display for Refusal {
    ghost use Rattle.std.specs.Prelude.{Some};
    ghost use Rattle.search.specs.Refusal.{name_of};

    ghost output = { λ refusal. Some (name_of refusal) };

    fn fmt<W: fmt::Write>(&self, f: &mut fmt::Formatter<W>) -> fmt::Result {
        f.write_str(match self {
            Refusal::Unfinished => "unfinished",
            Refusal::ShortMemory => "short-memory",
            Refusal::ContainingPath => "containing-path",
            Refusal::SpecifierText => "specifier-text",
            Refusal::EmptySpecifier => "empty-specifier",
            Refusal::AbsolutePath => "absolute-path",
            Refusal::PackageImport => "package-import",
            Refusal::LongPath => "long-path",
            Refusal::TrailFull => "trail-full",
            Refusal::BrokenManifest(_) => "broken-manifest",
            Refusal::TooDeep => "too-deep",
        })
    }
}
