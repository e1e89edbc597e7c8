use kinds::{plain_size, put_plain, read_plain};

#[test]
fn lays_a_byte_array(rt: HostRuntime) {
    let mut out = [9u8; 8];
    assert_eq!(rt; put_plain(0, b"abc", &mut out), Some(7));
    assert_eq!(rt; out, [3, 0, 0, 0, b'a', b'b', b'c', 9]);
    assert_eq!(rt; put_plain(0, b"abcde", &mut out), None);
    assert_eq!(rt; out, [3, 0, 0, 0, b'a', b'b', b'c', 9]);
    assert_eq!(rt; put_plain(2, b"xy", &mut out), Some(2));
    assert_eq!(rt; out, [b'x', b'y', 0, 0, b'a', b'b', b'c', 9]);
}

#[test]
fn reads_a_byte_array(rt: HostRuntime) {
    assert!(rt; read_plain(0, &[2, 0, 0, 0, 7, 8, 9]) == Some((&[7, 8], 6)));
    assert!(rt; read_plain(0, &[0, 0, 0, 0]) == Some((&[], 4)));
    assert!(rt; read_plain(0, &[2, 0, 0, 0, 7]).is_none());
    assert!(rt; read_plain(0, &[0, 1, 0, 0, 7]).is_none());
    assert!(rt; read_plain(0, &[1, 0, 0]).is_none());
    assert!(rt; read_plain(2, &[7, 8, 9]) == Some((&[7, 8], 2)));
    assert!(rt; read_plain(2, &[7]).is_none());
}

#[test]
fn longest_byte_arrays(rt: HostRuntime) {
    let mut out = [9u8; 134];
    assert_eq!(rt; put_plain(0, &[5; 128], &mut out[..131]), None);
    assert_eq!(rt; put_plain(0, &[5; 128], &mut out), Some(132));
    assert!(rt; out[..5] == [128, 0, 0, 0, 5] && out[131..] == [5, 9, 9]);
    assert!(rt; read_plain(0, &out) == Some((&[5; 128], 132)));
    assert!(rt; read_plain(0, &out[..131]).is_none());
    out[0] = 129;
    assert!(rt; read_plain(0, &out).is_none());
    assert!(rt; read_plain(0, &[0, 0, 0, 1, 5]).is_none());
}

#[test]
fn sizes(rt: HostRuntime) {
    assert_eq!(rt; plain_size(0, &[0; 128]), Some(132));
    assert_eq!(rt; plain_size(0, &[0; 129]), None);
    assert_eq!(rt; plain_size(4, &[0; 4]), Some(4));
    assert_eq!(rt; plain_size(4, &[0; 5]), None);
    assert_eq!(rt; plain_size(0, &[]), Some(4));
    assert_eq!(rt; plain_size(128, &[0; 128]), Some(128));
    assert_eq!(rt; plain_size(1, &[]), None);
}
