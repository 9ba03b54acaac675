//! A bundle with each kind of line.
use kz_bundle::{print_bundle, read_bundle};
use kz_model::Seed;
use std::test::Fail;

const TEXT: &[u8] = b"\
    machine 1\nseed 7\ncpus 2\nframes 16\npages 8\nbudget 1\nmagazine 4\ndepot 2\n\
    type proc { ptr next; u64 pid }\ntype cred { u32 uid; union { u8 b[4]; bytes 3 c } u }\n\
    cpu 0\na y cred\n--\nz x proc\ng x 1\nw y 4 00ff\nf y proc\n\
    cpu 1\n--\nt x\nr x 0 16\nflush cred\ntrim proc\n\
    order\n0\n--\n0\n0\n0\n0\n1\n1\n1\n1\nend\n";

#[test]
fn a_bundle_is_printed_as_it_was_read(rt: HostRuntime) -> Result<(), Fail> {
    let bundle = read_bundle(rt.alloc(), TEXT)?;
    assert_eq!(rt; (bundle.cpus, bundle.rounds, bundle.budget), (2, 2, 1));
    assert_eq!(rt; bundle.seed, Seed::Number(7));
    assert_eq!(rt; bundle.names.len(), 2);
    let printed = print_bundle(rt.alloc(), &bundle)?;
    assert_eq!(rt; printed.as_slice(), TEXT);
    Ok(())
}
