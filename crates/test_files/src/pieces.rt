//! Curve files that are read piece by piece.
use crate::curve_files::{FILE, one_road};
use ltm_casefile::read_case;
use ltm_check::{Checked, CurvesFault, FileFault, check_curves, read_curves, read_curves_from};
use ltm_io::SureSource;
use ltm_scenario::Scenario;
use std::alloc::Global;
use std::test::Fail;

/// What is wrong with a text that is read whole, if anything is.
fn whole(alloc: Global, scenario: &Scenario, text: &[u8]) -> Option<CurvesFault> {
    read_curves(alloc, scenario, text).err()
}

/// Whether a text of at most `most` bytes, and of 2^20, that is read in pieces of this size has this fault, or tells the loading.
fn pieces_give(
    alloc: Global,
    scenario: &Scenario,
    text: &[u8],
    piece: u32,
    most: u64,
    fault: Option<FileFault>,
) -> bool {
    let Ok(mut source) = SureSource::create(alloc, text, piece.max(1)) else {
        return false;
    };
    match read_curves_from(alloc, scenario, &mut source, most.min(1 << 20)) {
        Ok(curves) => {
            fault.is_none() && matches!(check_curves(alloc, scenario, &curves), Ok(Checked::Yes))
        }
        Err(found) => fault == Some(found),
    }
}

#[test]
fn pieces_are_read_as_the_whole(rt: HostRuntime) -> Result<(), Fail> {
    let mut folder = one_road(rt.alloc())?;
    let Ok(scenario) = read_case(rt.alloc(), &mut folder) else {
        return Err(Fail::from("no case"));
    };
    let texts: [&[u8]; 9] = [
        FILE.as_bytes(),
        b"kind,name,destination,counts\r\nup,a,n2,0 500 1000 1000 1000\r\ndown,a,n2,0 0 0 500 1000\r\n\r\ndep,n1,n2,0 500 1000 1000 1000\ndep,n2,n2,0 0 0 0 0\narr,n2,n2,0 0 0 500 1000".as_slice(),
        b"kind,name,destination,counts\nup,a,n2,\"0 500 1000 1000 1000\"\n\"down\",a,n2,0 0 0 500 1000\ndep,n1,n2,0 500 1000 1000 1000\ndep,n2,n2,0 0 0 0 0\narr,n2,n2,0 0 0 500 1000\n".as_slice(),
        b"\xEF\xBB\xBFkind,name,destination,counts\nup,a,n2,0 500 1000 1000 1000\ndown,a,n2,0 0 0 500 1000\ndep,n1,n2,0 500 1000 1000 1000\ndep,n2,n2,0 0 0 0 0\narr,n2,n2,0 0 0 500 1000\n".as_slice(),
        b"".as_slice(),
        b"kind,name\n".as_slice(),
        b"kind,name,destination,counts\nup,a,n2,0 500 1000 1000 1000\n\xEF\xBB\xBFdown,a,n2,0 0 0 500 1000\n".as_slice(),
        b"kind,name,destination,counts\nup,a,n2,0 500 1000 1000 1000\ndown,a,n2,0 0 0 500 1000\n".as_slice(),
        b"kind,name,destination,counts\nup,a,n2,\"0\n1\"\ndown,a,n2,0 0 0 500 1000\n".as_slice(),
    ];
    for text in texts {
        let fault = match whole(rt.alloc(), &scenario, text) {
            Some(fault) => Some(FileFault::Curves(fault)),
            None => None,
        };
        let size = text.len() as u64;
        for piece in [1, 2, 3, 7, 31, 1000] {
            assert!(rt; pieces_give(rt.alloc(), &scenario, text, piece, size, fault));
            if size > 0 {
                let long = Some(FileFault::TooLong);
                assert!(rt; pieces_give(rt.alloc(), &scenario, text, piece, size - 1, long));
            }
        }
    }
    Ok(())
}
