ghost use Rattle.std.specs.Prelude.{◌≡◌};
ghost use Rattle.card.specs.Told.{number_of, record_of, group_of, layer_of};
ghost use Rattle.rules.specs.Typed.{type_number};
ghost use Rattle.card.specs.declared.fault.Fault.TheVariants.{Image as of_image, Table as of_table, Types as of_types};
ghost use Rattle.card.specs.declared.fault.TableFault.TheVariants.{Misplaced as of_misplaced};
ghost use Rattle.verdict.specs.Verdict.{image_number};

use grammar::Misplaced;
use image::ImageFault;
use rules::{Broken, TypeFault};

// What an accepted card has.
#[derive(Clone, Copy)]
pub struct Counts {
    pub enums: usize,
    pub functions: usize,
}

// Why the records of an image are no card: records are counted from 0, and the end of the records
// is misplaced at their number.
#[derive(Clone, Copy)]
pub enum TableFault {
    Unknown { record: usize },
    Misplaced { record: usize, group: Option<usize> },
    Misnumbered { record: usize },
}

// Why an image is refused.
#[derive(Clone, Copy)]
pub enum Fault {
    Image(ImageFault),
    Table(TableFault),
    Types(TypeFault),
}

// The layer of tests that a fault comes from: the next one begins when the one before found none.
#[derive(Clone, Copy)]
pub enum Layer {
    Image,
    Table,
    Types,
}

// These are by hand, so that a contract can name the fault that `?` makes.
impl From<Misplaced> for TableFault {
    ghost from_gives = { λ m r. r ≡ of_misplaced m.«record» m.group };

    fn from(m: Misplaced) -> TableFault {
        TableFault::Misplaced {
            record: m.record,
            group: m.group,
        }
    }
}

impl From<ImageFault> for Fault {
    ghost from_gives = { λ f r. r ≡ of_image f };

    fn from(f: ImageFault) -> Fault {
        Fault::Image(f)
    }
}

impl From<TableFault> for Fault {
    ghost from_gives = { λ f r. r ≡ of_table f };

    fn from(f: TableFault) -> Fault {
        Fault::Table(f)
    }
}

impl From<TypeFault> for Fault {
    ghost from_gives = { λ f r. r ≡ of_types f };

    fn from(f: TypeFault) -> Fault {
        Fault::Types(f)
    }
}

fn image_number(f: ImageFault) -> u8
    ensures { result ≡ image_number f }
{
    match f {
        ImageFault::Short => 2,
        ImageFault::Letters => 3,
        ImageFault::Version => 4,
        ImageFault::Range => 5,
        ImageFault::Length => 6,
    }
}

fn type_number(broken: Broken) -> u8
    ensures { result ≡ type_number broken }
{
    match broken {
        Broken::Unbound => 10,
        Broken::Mistyped => 11,
        Broken::Count => 12,
        Broken::Arms => 13,
    }
}

impl Fault {
    pub fn number(&self) -> u8
        ensures { result ≡ number_of self.now }
    {
        match *self {
            Fault::Image(f) => image_number(f),
            Fault::Table(TableFault::Unknown { .. }) => 7,
            Fault::Table(TableFault::Misplaced { .. }) => 8,
            Fault::Table(TableFault::Misnumbered { .. }) => 9,
            Fault::Types(f) => type_number(f.broken),
        }
    }

    pub fn layer(&self) -> Layer
        ensures { result ≡ layer_of self.now }
    {
        match *self {
            Fault::Image(_) => Layer::Image,
            Fault::Table(_) => Layer::Table,
            Fault::Types(_) => Layer::Types,
        }
    }

    // What is wrong with the image as a whole is no record's.
    pub fn record(&self) -> Option<usize>
        ensures { result ≡ record_of self.now }
    {
        match *self {
            Fault::Image(_) => None,
            Fault::Table(TableFault::Unknown { record }) => Some(record),
            Fault::Table(TableFault::Misplaced { record, .. }) => Some(record),
            Fault::Table(TableFault::Misnumbered { record }) => Some(record),
            Fault::Types(f) => Some(f.record),
        }
    }

    // The innermost group that is open at a misplaced record, by its first record.
    pub fn group(&self) -> Option<usize>
        ensures { result ≡ group_of self.now }
    {
        match *self {
            Fault::Table(TableFault::Misplaced { group, .. }) => group,
            _ => None,
        }
    }
}
