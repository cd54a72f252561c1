// The program that converts: reads one draft from standard input and writes the rule file that it becomes, or one line `REFUSED n` (02, [1]).
//
// In order: the sizes of what is read and of what is written; what is written; the program.
#![tactic(auto)]

ghost use Rattle.convert.specs.Output.{Outputs};

use converter::convert;
use input::read_full;
use printing::line;
use std::io;

// One byte more than a draft that may pass: a longer draft is refused by its length, whatever comes after these bytes (`output-take`).
const DRAFT: usize = 4097;

// The longest rule file.
const AREA: usize = 4096;

// Converts the draft and makes what is written at the start of the area: answers how many bytes that is.
fn output(draft: &[u8], area: &mut [u8; AREA]) -> usize
    ensures { Outputs draft.now area.new result }
{
    let conversion = convert(draft, area);
    let written = conversion.refusal == 0;
    if written {
        return conversion.length as usize;
    }
    line(area, 0, b"REFUSED", &[conversion.refusal])
}

fn main(rt: HostRuntime) -> io::Result<()> {
    let mut draft = [0u8; DRAFT];
    let mut area = [0u8; AREA];
    let length = read_full(&mut rt.stdin(), &mut draft)?;
    let count = output(&draft[..length], &mut area);
    rt.write_all(&area[..count])
}
