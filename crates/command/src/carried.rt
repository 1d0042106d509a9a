// A type that a satellite carries: what is asked of its fields.
use layouts::Layout;
use satellites::Satellite;

#[derive(Clone, Copy)]
pub(crate) struct Carried {
    pub(crate) satellite: Satellite,
    pub(crate) ty: u32,
    pub(crate) layout: Layout,
    names: &'static [u8],
}

impl Carried {
    pub(crate) fn of(satellite: Satellite, ty: u32) -> Option<Carried> {
        let layout = layouts::of(satellite, ty)?;
        Some(Carried {
            satellite,
            ty,
            layout,
            names: names::row(satellite, ty),
        })
    }

    pub(crate) fn is_named(&self, field: usize, word: &[u8]) -> bool {
        crate::given::is_name(word, names::in_row(self.names, field))
    }

    pub(crate) fn print_name(&self, field: usize) {
        printing::name(names::in_row(self.names, field));
    }

    // Whether a field is a temperature's code: in types 2 and 5 all are, but for the clock ahead of them.
    pub(crate) fn is_temperature(&self, field: usize) -> bool {
        match self.ty {
            2 | 5 => self.layout.first_behind_clock() <= field,
            _ => false,
        }
    }

    // In type 7 all fields are, behind clock and message number.
    pub(crate) fn is_character(&self, field: usize) -> bool {
        self.ty == 7 && 1 < field
    }
}
