// RFC 3629's examples, and the ends of its nine rows, put to `utf8::scan_utf8`.
//
// A line for each example: its bytes, whether they are UTF-8 and the place of the first bad byte, as `scan_utf8`
// answers (without one, their number), and what the bytes are; DIFFERENT stands at the end of a line where the RFC
// says otherwise. The last line has the counts.
#![tactic(auto)]

ghost use Rattle.std.specs.Prelude.{◌≤◌, length};

use std::io;

// An example: what it is, or why it is not UTF-8, and its bytes.
type Example = (&'static str, &'static [u8]);

// Examples that are UTF-8: those of section 7, and of each row of section 4 the least and the greatest first
// byte with the least and the greatest second one.
const CHARACTERS: [Example; 31] = [
    (
        "section 7: A<NOT IDENTICAL TO><ALPHA>.",
        &[0x41, 0xe2, 0x89, 0xa2, 0xce, 0x91, 0x2e],
    ),
    (
        "section 7: Korean \"hangugeo\"",
        &[0xed, 0x95, 0x9c, 0xea, 0xb5, 0xad, 0xec, 0x96, 0xb4],
    ),
    (
        "section 7: Japanese \"nihongo\"",
        &[0xe6, 0x97, 0xa5, 0xe6, 0x9c, 0xac, 0xe8, 0xaa, 0x9e],
    ),
    (
        "section 7: byte order mark and \"stump of tree\"",
        &[0xef, 0xbb, 0xbf, 0xf0, 0xa3, 0x8e, 0xb4],
    ),
    ("no bytes at all", &[]),
    ("row 00-7F", &[0x00]),
    ("row 00-7F", &[0x7f]),
    ("row C2-DF 80-BF", &[0xc2, 0x80]),
    ("row C2-DF 80-BF", &[0xc2, 0xbf]),
    ("row C2-DF 80-BF", &[0xdf, 0x80]),
    ("row C2-DF 80-BF", &[0xdf, 0xbf]),
    ("row E0 A0-BF", &[0xe0, 0xa0, 0x80]),
    ("row E0 A0-BF", &[0xe0, 0xbf, 0xbf]),
    ("row E1-EC 80-BF", &[0xe1, 0x80, 0x80]),
    ("row E1-EC 80-BF", &[0xe1, 0xbf, 0xbf]),
    ("row E1-EC 80-BF", &[0xec, 0x80, 0x80]),
    ("row E1-EC 80-BF", &[0xec, 0xbf, 0xbf]),
    ("row ED 80-9F", &[0xed, 0x80, 0x80]),
    ("row ED 80-9F", &[0xed, 0x9f, 0xbf]),
    ("row EE-EF 80-BF", &[0xee, 0x80, 0x80]),
    ("row EE-EF 80-BF", &[0xee, 0xbf, 0xbf]),
    ("row EE-EF 80-BF", &[0xef, 0x80, 0x80]),
    ("row EE-EF 80-BF", &[0xef, 0xbf, 0xbf]),
    ("row F0 90-BF", &[0xf0, 0x90, 0x80, 0x80]),
    ("row F0 90-BF", &[0xf0, 0xbf, 0xbf, 0xbf]),
    ("row F1-F3 80-BF", &[0xf1, 0x80, 0x80, 0x80]),
    ("row F1-F3 80-BF", &[0xf1, 0xbf, 0xbf, 0xbf]),
    ("row F1-F3 80-BF", &[0xf3, 0x80, 0x80, 0x80]),
    ("row F1-F3 80-BF", &[0xf3, 0xbf, 0xbf, 0xbf]),
    ("row F4 80-8F", &[0xf4, 0x80, 0x80, 0x80]),
    ("row F4 80-8F", &[0xf4, 0x8f, 0xbf, 0xbf]),
];

// Examples that are not: the bytes next to those, and the forms that section 3 warns of, with its own `C0 80`
// and `ED A1 8C ED BE B4`, and `2F C0 AE 2E 2F` of section 10.
const FAULTS: [Example; 53] = [
    ("second byte out of its range", &[0xc2, 0x7f]),
    ("second byte out of its range", &[0xc2, 0xc0]),
    ("second byte out of its range", &[0xdf, 0x7f]),
    ("second byte out of its range", &[0xdf, 0xc0]),
    ("second byte out of its range", &[0xe0, 0xc0, 0x80]),
    ("second byte out of its range", &[0xe1, 0x7f, 0xbf]),
    ("second byte out of its range", &[0xe1, 0xc0, 0x80]),
    ("second byte out of its range", &[0xec, 0x7f, 0xbf]),
    ("second byte out of its range", &[0xec, 0xc0, 0x80]),
    ("second byte out of its range", &[0xed, 0x7f, 0xbf]),
    ("second byte out of its range", &[0xee, 0x7f, 0xbf]),
    ("second byte out of its range", &[0xee, 0xc0, 0x80]),
    ("second byte out of its range", &[0xef, 0x7f, 0xbf]),
    ("second byte out of its range", &[0xef, 0xc0, 0x80]),
    ("second byte out of its range", &[0xf0, 0xc0, 0x80, 0x80]),
    ("second byte out of its range", &[0xf1, 0x7f, 0xbf, 0xbf]),
    ("second byte out of its range", &[0xf1, 0xc0, 0x80, 0x80]),
    ("second byte out of its range", &[0xf3, 0x7f, 0xbf, 0xbf]),
    ("second byte out of its range", &[0xf3, 0xc0, 0x80, 0x80]),
    ("second byte out of its range", &[0xf4, 0x7f, 0xbf, 0xbf]),
    ("later byte out of its range", &[0xe1, 0x80, 0x7f]),
    ("later byte out of its range", &[0xe1, 0x80, 0xc0]),
    ("later byte out of its range", &[0xf1, 0x80, 0x7f, 0x80]),
    ("later byte out of its range", &[0xf1, 0x80, 0xc0, 0x80]),
    ("later byte out of its range", &[0xf1, 0x80, 0x80, 0x7f]),
    ("later byte out of its range", &[0xf1, 0x80, 0x80, 0xc0]),
    ("begins no character", &[0x80]),
    ("begins no character", &[0xbf]),
    ("begins no character", &[0xc0]),
    ("begins no character", &[0xc1]),
    ("begins no character", &[0xf5]),
    ("begins no character", &[0xff]),
    ("overlong form", &[0xc0, 0x80]),
    ("overlong form", &[0xc1, 0xbf]),
    ("overlong form", &[0xe0, 0x80, 0x80]),
    ("overlong form", &[0xe0, 0x9f, 0xbf]),
    ("overlong form", &[0xf0, 0x8f, 0xbf, 0xbf]),
    ("overlong form", &[0xf0, 0x80, 0x80, 0x80]),
    ("overlong form", &[0x2f, 0xc0, 0xae, 0x2e, 0x2f]),
    ("surrogate", &[0xed, 0xa0, 0x80]),
    ("surrogate", &[0xed, 0xbf, 0xbf]),
    ("surrogate", &[0xed, 0xa1, 0x8c, 0xed, 0xbe, 0xb4]),
    ("above 10FFFF", &[0xf4, 0x90, 0x80, 0x80]),
    ("above 10FFFF", &[0xf5, 0x80, 0x80, 0x80]),
    ("above 10FFFF", &[0xf7, 0xbf, 0xbf, 0xbf]),
    ("cut off", &[0xc2]),
    ("cut off", &[0xe0, 0xa0]),
    ("cut off", &[0xe1, 0x80]),
    ("cut off", &[0xf0, 0x90]),
    ("cut off", &[0xf0, 0x90, 0x80]),
    ("cut off", &[0xf4, 0x8f, 0xbf]),
    ("cut off", &[0x41, 0xc2]),
    ("cut off", &[0xe2, 0x89, 0x41]),
];

// The line of an example, which by the RFC is UTF-8 where `expected`: its bytes in nine columns, three characters each,
// the answer, the place and what it is.
fn print_example(rt: &impl Print, example: &Example, expected: bool) -> io::Result<()> {
    let (what, bytes) = *example;
    for b in bytes {
        print!(rt; "{b:02X} ")?;
    }
    for _ in bytes.len()..9 {
        rt.print("   ")?;
    }
    let scan = utf8::scan_utf8(bytes);
    let answer = if scan.passes { "UTF-8" } else { "not UTF-8" };
    let place = scan.place;
    let end = if scan.passes == expected {
        ""
    } else {
        "  DIFFERENT"
    };
    println!(rt; " {answer:<11}{place}  {what}{end}")
}

// How many of the examples pass.
fn passing(examples: &[Example]) -> usize
    ensures { result ≤ length examples.now }
{
    examples.iter().filter(|e| utf8::is_utf8(e.1)).count()
}

fn main(rt: HostRuntime) -> io::Result<()> {
    rt.println("RFC 3629: which bytes are UTF-8, and the place of the first bad one\n")?;
    for example in &CHARACTERS {
        print_example(&rt, example, true)?;
    }
    for example in &FAULTS {
        print_example(&rt, example, false)?;
    }
    let passed = passing(&CHARACTERS);
    let wrongly = passing(&FAULTS);
    let examples = CHARACTERS.len() + FAULTS.len();
    let accepted = passed + wrongly;
    let refused = examples - accepted;
    let different = CHARACTERS.len() - passed + wrongly;
    print!(rt; "\n{examples} examples: {accepted} UTF-8, {refused} not UTF-8, ")?;
    println!(rt; "{different} different from RFC 3629")
}
