// What a lookup answers.
ghost use Rattle.std.specs.Prelude.{◌≡◌};
ghost use Rattle.std.specs.Option.{option_map};
ghost use Rattle.std.specs.Prelude.{take};

use list::front;
use search::Refusal;
use std::fmt;

/// What a chosen file is to be read as, where its ending says so.
#[derive(Clone, Copy, PartialEq, Eq, Debug)]
pub enum ModuleType {
    Module,
    CommonJs,
    Json,
}

impl fmt::Display for ModuleType {
    ghost use Rattle.std.specs.Prelude.{Some};
    ghost use Rattle.dts_resolver.specs.Rows.{type_name};

    ghost output = { λ module_type. Some (type_name module_type) };

    fn fmt<W: fmt::Write>(&self, f: &mut fmt::Formatter<W>) -> fmt::Result {
        f.write_str(match self {
            ModuleType::Module => "module",
            ModuleType::CommonJs => "commonjs",
            ModuleType::Json => "json",
        })
    }
}

/// The chosen path fills the first `path` bytes of the path buffer; none where nothing is found. It is told by its length:
/// a slice would keep the lent memory from its owner.
#[derive(Clone, Copy, PartialEq, Eq, Debug)]
pub struct Resolution<'s> {
    pub path: Option<usize>,
    /// The query of the specifier with its `?`, where there is one.
    pub query: Option<&'s [u8]>,
    /// The fragment of the specifier with its `#`, where there is one.
    pub fragment: Option<&'s [u8]>,
    pub module_type: Option<ModuleType>,
    /// How many steps the trail has.
    pub count: usize,
}

impl Resolution<'_> {
    /// The chosen path, in the path buffer that the lookup was lent.
    pub fn chosen<'b>(&self, buffer: &'b [u8]) -> Option<&'b [u8]>
        ensures start_of_the_buffer { option_map (λ x. x.now) result ≡ option_map (λ n. take n buffer.now) self.now.path }
    {
        self.path.map(|end| front(buffer, end))
    }
}

/// A refusal, with how many steps the trail has that it leaves.
#[derive(Clone, Copy, PartialEq, Eq, Debug)]
pub struct Refused {
    pub refusal: Refusal,
    pub count: usize,
}
