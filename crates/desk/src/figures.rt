// The figures of a basis, printed.
use basis::interface::Basis;
use basis::kind::Kind;
use basis::loading::{Loaded, Loading};
use basis::setting::Setting;
use basis::shift::{Shift, Shifted};
use std::io;
use table::Table;

// The ages that are printed: some of working life, both sides of a final age of 65, and the last.
const SHOWN: [u32; 7] = [20, 40, 60, 64, 65, 90, 120];

pub(crate) fn print_figures<B: Basis>(rt: &HostRuntime, basis: &B) -> io::Result<()> {
    print!(rt; " age")?;
    for kind in Kind::ALL {
        print!(rt; "{kind:>9}")?;
    }
    println!(rt; "")?;
    for age in SHOWN {
        print!(rt; "{age:>4}")?;
        for kind in Kind::ALL {
            let figure = basis.figure(kind, age);
            print!(rt; "{figure:>9}")?;
        }
        println!(rt; "")?;
    }
    Ok(())
}

pub(crate) fn lay(table: Table, shift: Shift, loading: Loading) -> Loaded<Shifted<Table>> {
    loading.over(shift.over(table))
}
