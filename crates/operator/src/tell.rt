// The line that tells a refusal. (Apart from refused.rt: what it promises is said of that type.)
ghost use Rattle.report.specs.Appends.{Appends};
ghost use Rattle.report.specs.TextBytes.{plan_refused_bytes};
ghost use Rattle.operator.specs.ConsoleAnswer.{refused_in};
ghost use Rattle.operator.specs.ConsoleText.{line_of};

use crate::refused::Refused;

pub fn tell(refused: Refused, out: &mut [u8]) -> usize
    ensures { Appends plan_refused_bytes out.old 0 (line_of (refused_in refused)) out.new result }
{
    match refused {
        Refused::Plan(r) => report::plan_refused(out, 0, r),
        Refused::Other(r) => report::refused_line(out, 0, r),
    }
}
