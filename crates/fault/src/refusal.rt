ghost use Rattle.std.specs.Prelude.{◌≡◌};
ghost use Rattle.fault.specs.declared.report.Report.{Report};

use crate::Report;

// A reason why a call is refused. Each tells its number, the page and the pointer that it is about, and the layer that gave it.
pub trait Refusal {
    ghost told: { Self → Report };

    fn report(&self) -> Report
        ensures { result ≡ told self.now };

    fn number(&self) -> u8
        ensures { result ≡ (told self.now).number }
    {
        self.report().number
    }
}
