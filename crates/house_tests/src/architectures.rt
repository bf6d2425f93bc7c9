//! A file with each statement.
use arch_reader::read_arch;
use std::alloc::Global;

/// Whether a file is read with so many statements and this end line.
fn is_read(alloc: Global, bytes: &[u8], statements: usize, end_line: u64) -> bool {
    if bytes.len() > 16_777_216 {
        return false;
    }
    match read_arch(alloc, bytes) {
        Ok(file) => file.lines.list().len() == statements && file.end_line == end_line,
        Err(_) => false,
    }
}

#[test]
fn read(rt: HostRuntime) {
    let alloc = rt.alloc();
    assert!(rt; is_read(alloc, b"arch 1\n#\x00\n", 0, 3));
    assert!(rt;
        is_read(
            alloc,
            b"arch 1\nobjective c\nresource a c=1099511627776\n",
            2,
            4
        )
    );
    assert!(rt;
        is_read(
            alloc,
            b"arch 1\nobjective c\nresource a c=1e-999999\n",
            2,
            4
        )
    );
    let every = b"arch 1\nobjective c scale 2 floor\nclock scale 1\nresource a c=1.5\nresource b\n\
        link l a -- b c=1\nlink k b -> a\ntraffic l c=2\ntask s\ntask t\nmessage m s -> t\nmerge n m\n\
        map s a time=2.5 c=1\ntable PE 0 b rows=1 time=2 c=3 c@0\nquantity n 3\n\
        quantity table PE 0 1 rows=1\nhops 3\nhops n 2\ndelay 1\ndelay n 0.5\ndeadline t 40";
    assert!(rt; is_read(alloc, every, 20, 22));
}
