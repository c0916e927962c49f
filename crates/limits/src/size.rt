// Sizes of elements, ASDUs and runs of objects. From `point_value.rs` and `max_objects_fitting_apdu` of `output.rs`.
ghost use Rattle.std.specs.Prelude.{◌≡◌, ◌+◌, ◌*◌, ◌<◌, ◌≤◌};
ghost use Rattle.limits.specs.Size.{class_of, element_octets, point_octets, point_sizes, control_octets, header_octets, address_octets, count_limit, standard_limit, most_objects, run_octets};

// The length limit of an APDU, as the standard has it.
pub const STANDARD_LIMIT: usize = 253;

// The control octets of an APDU, before its ASDU.
pub const CONTROL_OCTETS: usize = 4;

// The octets of an ASDU before its first object.
pub const HEADER_OCTETS: usize = 6;

// What is gone of the limit before the first object.
pub const BEFORE_OBJECTS: usize = CONTROL_OCTETS + HEADER_OCTETS;

// The octets of an object's address.
pub const ADDRESS_OCTETS: usize = 3;

// The most objects that an ASDU's count can say.
pub const COUNT_LIMIT: usize = 127;

// From this number on no type is a point's.
pub const POINT_KINDS_END: usize = 41;

// From this number on no type is known.
const KINDS_END: usize = 108;

// The element octets of types 0 to 107, ten to a row; 0 where no type is named.
const ELEMENT_OCTETS: [u8; KINDS_END] = *b"\x00\x01\x04\x01\x04\x02\x05\x05\x00\x03\
      \x06\x03\x06\x05\x08\x05\x00\x06\x07\x07\
      \x05\x02\x00\x00\x00\x00\x00\x00\x00\x00\
      \x08\x08\x09\x0C\x0A\x0A\x0C\x0C\x0A\x0B\
      \x0B\x00\x00\x00\x00\x01\x01\x01\x03\x03\
      \x05\x04\x00\x00\x00\x00\x00\x00\x08\x08\
      \x08\x0A\x0A\x0C\x0B\x00\x00\x00\x00\x00\
      \x01\x00\x00\x00\x00\x00\x00\x00\x00\x00\
      \x00\x00\x00\x00\x00\x00\x00\x00\x00\x00\
      \x00\x00\x00\x00\x00\x00\x00\x00\x00\x00\
      \x01\x01\x00\x07\x02\x01\x00\x09";

// What a type is: a point's, a system command's, a process command's, or the end of initialisation.
#[derive(Clone, Copy, Debug, PartialEq, Eq)]
pub enum Class {
    Point,
    System,
    Process,
    EndOfInitialization,
}

// What a type is; none where no type is named.
pub fn class_of(kind: u8) -> Option<Class>
    ensures { result ≡ class_of kind }
{
    match kind {
        1..=7 | 9..=15 | 17..=21 | 30..=40 => Some(Class::Point),
        45..=51 | 58..=64 => Some(Class::Process),
        70 => Some(Class::EndOfInitialization),
        100..=105 | 107 => Some(Class::System),
        _ => None,
    }
}

// The element octets of a type; 0 for an unknown one.
pub fn element_octets(kind: u8) -> usize
    ensures { (result ≡ element_octets kind) × (result ≤ 12) }
{
    let kind = usize::from(kind);
    if KINDS_END <= kind {
        return 0;
    }
    usize::from(ELEMENT_OCTETS[kind])
}

// The element octets of a point type; 0 for every other type. Below 41 the table of all types says it: where types are mixed, the branches of a match on
// the class are foreseen wrong.
#[tactic(auto, using(crate::proofs::Sizes::point_beyond, crate::proofs::Sizes::point_below))]
pub fn point_octets(kind: u8) -> usize
    ensures { (result ≡ point_octets kind) × (result ≤ 12) }
{
    if POINT_KINDS_END <= usize::from(kind) {
        return 0;
    }
    element_octets(kind)
}

// The point's element octets of types 0 to 40, for loops over many points: made once and lent. No other type is below 41.
pub fn point_sizes() -> [u8; POINT_KINDS_END]
    ensures { result ≡ point_sizes }
{
    let mut sizes = [0; POINT_KINDS_END];
    sizes.copy_from_slice(&ELEMENT_OCTETS[..POINT_KINDS_END]);
    sizes
}

// The most objects of one ASDU under a length limit; 0 where not even the header fits.
pub fn most_objects(limit: usize, element: usize) -> usize
    requires { element ≤ 255 }
    ensures { (result ≡ most_objects limit element) × (result ≤ count_limit) }
{
    let fit = limit.saturating_sub(BEFORE_OBJECTS) / (ADDRESS_OCTETS + element);
    fit.min(COUNT_LIMIT)
}

// The octets of a run of n objects, each ASDU full but the last; n far above the points of any table is taken.
pub fn run_octets(limit: usize, element: usize, n: usize) -> usize
    requires { (control_octets + header_octets + address_octets + element ≤ limit) × (limit ≤ standard_limit) × (n ≤ 65536) }
    ensures { result ≡ run_octets limit element n }
{
    let most = most_objects(limit, element);
    let asdus = (n + (most - 1)) / most;
    HEADER_OCTETS * asdus + n * (ADDRESS_OCTETS + element)
}
