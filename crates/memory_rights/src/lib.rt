// Document 01, "Checks": the rights of a translated cycle.
#![tactic(auto)]

ghost use Rattle.std.specs.Prelude.{◌≡◌};
ghost use Rattle.rules.specs.Checks.{rights_of};

use rules::{Cycle, Unit};
use rules_flags::flag_if;

// The rights that this cycle violates: the VTR's flags in their places, and bit 7 for DMAI. A segment with no protection flag is done
// at once: that is the faster way through the run.
#[tactic(auto, using(crate::proofs::Unprotected::unprotected), unfolding(rules::specs::Checks::rights_of))]
pub fn rights_of(a: u8, c: Cycle) -> u8
    ensures { result ≡ rights_of a c }
{
    let free = a & Unit::PROTECTION == 0;
    if free {
        return 0;
    }
    let program = (c.status == Unit::PROGRAM) | (c.status == Unit::FETCH);
    flag_if((a & Unit::RD != 0) & !c.read, Unit::RDV)
        | flag_if((a & Unit::SYS != 0) & c.normal, Unit::SYSV)
        | flag_if((a & Unit::CPUI != 0) & !c.dma, Unit::CPUIV)
        | flag_if((a & Unit::EXC != 0) & !program, Unit::EXCV)
        | flag_if((a & Unit::DMAI != 0) & c.dma, Unit::DMAIV)
}
