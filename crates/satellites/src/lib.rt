// The seven satellites, by name (01, "Scope and rules" and "From antenna order to bytes"; FORMAT 2 and 3).
//
// What is a satellite's own is asked of this type, here and nowhere else. The address does not tell the satellite: C has
// two owners.
#![tactic(auto)]

ghost use Rattle.std.specs.Prelude.{◌≡◌, length};
ghost use Rattle.satellites.specs.Satellites.{seven, known, values_in, values_of, number_of, address_of, training_of, size_byte_of, type_byte_at};

#[derive(Clone, Copy, Debug, PartialEq, Eq)]
pub enum Satellite {
    HadesD,
    HadesIcm,
    MariaG,
    Unne1,
    HadesR,
    Unne1b,
    HadesSa,
}

impl Satellite {
    // Bytes of training: HADES-D's, and all others'.
    pub const SHORT_TRAINING: usize = 8;

    pub const LONG_TRAINING: usize = 16;

    // Bytes of sync, the same for all.
    pub const SYNC_BYTES: usize = 2;

    // How many there are. Their numbers are those below it.
    pub fn count() -> u32
        ensures { result ≡ length seven }
    {
        7
    }

    // The satellite of that number. The number is not cut down first: 259 is not 3.
    pub fn from_number(number: u32) -> Option<Satellite>
        ensures value { result ≡ known number }
        ensures result_value { values_in result ≡ values_of number }
    {
        match number {
            0 => Some(Satellite::HadesD),
            1 => Some(Satellite::HadesIcm),
            2 => Some(Satellite::MariaG),
            3 => Some(Satellite::Unne1),
            4 => Some(Satellite::HadesR),
            5 => Some(Satellite::Unne1b),
            6 => Some(Satellite::HadesSa),
            _ => None,
        }
    }

    pub fn number(self) -> u32
        ensures { result ≡ number_of self }
    {
        match self {
            Satellite::HadesD => 0,
            Satellite::HadesIcm => 1,
            Satellite::MariaG => 2,
            Satellite::Unne1 => 3,
            Satellite::HadesR => 4,
            Satellite::Unne1b => 5,
            Satellite::HadesSa => 6,
        }
    }

    // The low four bits of its type bytes.
    pub fn address(self) -> u8
        ensures { result ≡ address_of self }
    {
        match self {
            Satellite::HadesD => 0x8,
            Satellite::HadesIcm => 0x2,
            Satellite::MariaG => 0xB,
            Satellite::Unne1 => 0xC,
            Satellite::HadesR => 0xD,
            Satellite::Unne1b => 0xC,
            Satellite::HadesSa => 0x3,
        }
    }

    // How many bytes AA its frames start with.
    pub fn training(self) -> usize
        ensures { result ≡ training_of self }
    {
        match self {
            Satellite::HadesD => Satellite::SHORT_TRAINING,
            Satellite::HadesIcm => Satellite::LONG_TRAINING,
            Satellite::MariaG => Satellite::LONG_TRAINING,
            Satellite::Unne1 => Satellite::LONG_TRAINING,
            Satellite::HadesR => Satellite::LONG_TRAINING,
            Satellite::Unne1b => Satellite::LONG_TRAINING,
            Satellite::HadesSa => Satellite::LONG_TRAINING,
        }
    }

    // Whether a size byte stands between sync and type byte.
    pub fn has_size_byte(self) -> bool
        ensures { result ≡ size_byte_of self }
    {
        match self {
            Satellite::HadesD => false,
            Satellite::HadesIcm => false,
            Satellite::MariaG => false,
            Satellite::Unne1 => false,
            Satellite::HadesR => false,
            Satellite::Unne1b => false,
            Satellite::HadesSa => true,
        }
    }

    // Where the type byte stands: behind training, sync and, where there is one, the size byte.
    pub fn type_byte_at(self) -> usize
        ensures { result ≡ type_byte_at self }
    {
        let clear = self.training() + Satellite::SYNC_BYTES;
        if self.has_size_byte() {
            clear + 1
        } else {
            clear
        }
    }
}
