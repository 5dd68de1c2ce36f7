//! Makes the outlets of a run.
ghost use Rattle.std.specs.Prelude.{◌≡◌, IfErr, OnErr};
ghost use Rattle.psd_base.specs.Desk.{OnlyWrites, WriteFailed};
ghost use Rattle.kvm_program.specs.Outlets.{IsTextFault, Untouched};

use crate::outlets::send;
use psd_base::desk::Desk;
use psd_base::outlet::Outlet;
use psd_base::port::PortId;
use psd_base::stop::Stop;

/// Writes no bytes to the console, the log and each port, so that these outlets are there also where nothing is written to them.
pub fn open_outlets<D: Desk>(desk: &mut D, ports: u8) -> Result<(), Stop>
    ensures untouched { Untouched (D.told desk.old) (D.told desk.new) }
    ensures stop { IfErr result (IsTextFault (D.told desk.old) (D.told desk.new)) }
{
    open_logs(desk)?;
    for number in 0..ports {
        open_port(desk, number)?;
    }
    Ok(())
}

/// Makes the console and the log.
fn open_logs<D: Desk>(desk: &mut D) -> Result<(), Stop>
    ensures untouched { Untouched (D.told desk.old) (D.told desk.new) }
    ensures stop { IfErr result (IsTextFault (D.told desk.old) (D.told desk.new)) }
{
    touch(desk, &Outlet::Console)?;
    touch(desk, &Outlet::Log)
}

/// Makes the transcript of the port behind so many others.
fn open_port<D: Desk>(desk: &mut D, others: u8) -> Result<(), Stop>
    ensures untouched { Untouched (D.told desk.old) (D.told desk.new) }
    ensures stop { IfErr result (IsTextFault (D.told desk.old) (D.told desk.new)) }
{
    match PortId::new(others.saturating_add(1)) {
        Some(port) => touch(desk, &Outlet::Port(port)),
        None => Ok(()),
    }
}

/// Writes no bytes to an outlet.
fn touch<D: Desk>(desk: &mut D, to: &Outlet) -> Result<(), Stop>
    ensures same { (D.told desk.new).sent to.now ≡ (D.told desk.old).sent to.now }
    ensures stop { IfErr result (λ stop. stop ≡ Stop.WriteFault to.now) }
    ensures failed { OnErr result (WriteFailed to.now (D.told desk.old) (D.told desk.new)) }
    ensures only { OnlyWrites to.now (D.told desk.old) (D.told desk.new) }
{
    send(desk, to, &[])
}
