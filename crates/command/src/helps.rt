// What each command does, with an example that can be pasted.
use crate::given;
use crate::wrong::Wrong;

// help, help COMMAND
pub(crate) fn help(line: &[u8]) -> Result<(), Wrong<'_>> {
    given::has_words(line, 1, 2)?;
    let word = words::word(line, 1);
    match word {
        b"" | b"help" => all(),
        b"layouts" => layouts(),
        b"fields" => fields(),
        b"read" => read(),
        b"csv" => csv(),
        b"json" => json(),
        b"write" => write(),
        b"edit" => edit(),
        b"explain" => explain(),
        b"temperature" => temperature(),
        b"summary" => summary(),
        _ => return Err(unknown(word)),
    }
    Ok(())
}

pub(crate) fn unknown(word: &[u8]) -> Wrong<'_> {
    Wrong::Word {
        what: b"unknown command",
        word,
        hint: b" (help lists the commands)",
    }
}

fn all() {
    printing::text(
        b"A command is words: arguments, or a line of standard input, whose answer ends with an empty line.
  layouts                             the types of each satellite, their fields and bytes
  fields SATELLITE TYPE               number, name, first bit and width of each field
  read SATELLITE FRAME                the values of a frame by name, temperatures in degrees
  csv SATELLITE TYPE                  the frames on the lines that follow, as a table
  json SATELLITE                      the same, an object for each frame
  write SATELLITE TYPE VALUES..       the frame of these values
  edit SATELLITE FRAME FIELD VALUE    the frame with one field changed, and which sent bits flip
  explain SATELLITE FRAME             the frame taken apart, test by test
  temperature CODE..                  what a code stands for
  summary CODE..                      coldest and warmest of a day's ten codes
  help COMMAND                        more about a command, with an example
SATELLITE is a name, in upper or lower case, or a number: 0 HADES-D, 1 HADES-ICM, 2 MARIA-G, 3 UNNE-1, 4 HADES-R,
5 UNNE-1B, 6 HADES-SA. FRAME is in hexadecimal, with or without blanks. FIELD is a name or a number.
A line that begins with # is a remark, and has no answer.
",
    );
}

fn layouts() {
    printing::text(
        b"layouts
A line for each satellite and type: satellite number, type, number of fields, bytes of the frame.
  ./tolimbar layouts
",
    );
}

fn fields() {
    printing::text(
        b"fields SATELLITE TYPE
A line for each field: its number, its name, the bit of the body where it starts, its width in bits.
  ./tolimbar fields HADES-D 8
",
    );
}

fn read() {
    printing::text(
        b"read SATELLITE FRAME
Satellite, type and its name, then a line for each field: its name, its value, and of a temperature what it stands for.
  ./tolimbar read HADES-D AAAAAAAAAAAAAAAABF3528D05C3FBEB06108775B172EC2
",
    );
}

fn csv() {
    printing::text(
        b"csv SATELLITE TYPE
Each line of standard input, up to an empty one, is a frame and becomes a row, below a heading: the satellite, the fields' values,
behind a temperature's code its degrees (empty for a sensor error), and last, in the column refused, why there are none.
Where the words are refused, no frames are taken: the next line is a command.
  echo AAAAAAAAAAAAAAAABF3528D05C3FBEB06108775B172EC2 | ./tolimbar csv HADES-D 2
",
    );
}

fn json() {
    printing::text(
        b"json SATELLITE
Each line of standard input, up to an empty one, is a frame and becomes an object on a line: satellite, type, name, fields,
degrees (null for a sensor error), and last refused: null, or why there are none of these.
  echo AAAAAAAAAAAAAAAABF3528D05C3FBEB06108775B172EC2 | ./tolimbar json HADES-D
",
    );
}

fn write() {
    printing::text(
        b"write SATELLITE TYPE VALUES..
The frame, in hexadecimal. There is one value for each field, in the fields' order.
  ./tolimbar write HADES-D 2 80 81 82 83 84 85 86 87 88 89
",
    );
}

fn edit() {
    printing::text(
        b"edit SATELLITE FRAME FIELD VALUE
The edited frame, in hexadecimal, then satellite, type and what the field held and holds, then the sent bits of both frames, byte by
byte: ^ marks one that flips.
  ./tolimbar edit HADES-D AAAAAAAAAAAAAAAABF3528D05C3FBEB06108775B172EC2 tpb 90
",
    );
}

fn explain() {
    printing::text(
        b"explain SATELLITE FRAME
The frame's parts, then each test with what it found and expected, up to the first that fails, and why.
  ./tolimbar explain HADES-R AAAAAAAAAAAAAAAAAAAAAAAAAAAAAAAABF352C801859F384F5BF1761A8F00224436750
",
    );
}

fn temperature() {
    printing::text(
        b"temperature CODE..
A line for each code: so many degrees, or a sensor error.
  ./tolimbar temperature 0 80 254 255
",
    );
}

fn summary() {
    printing::text(
        b"summary CODE..
Of a day's ten codes, panels A to E, EPS, TX, TX2, RX, CPU: coldest, warmest, and how many sensors answered.
  ./tolimbar summary 90 100 60 255 80 80 80 80 80 80
",
    );
}
