//! Literals that are read and written again by the public readers and writers.

use df_filter_text::{read_filter, write_filter};
use df_value_text::{
    read_label, read_privilege, read_tag, read_value, write_label, write_privilege, write_tag,
    write_value,
};
use std::alloc::Global;
use std::test::Fail;

fn tag(alloc: Global, text: &[u8], again: &mut Vec<u8>) -> Result<(), Fail> {
    let (tag, _) = read_tag(alloc, text, 0)?;
    Ok(write_tag(&tag, again)?)
}

fn label(alloc: Global, text: &[u8], again: &mut Vec<u8>) -> Result<(), Fail> {
    let (label, _) = read_label(alloc, text, 0)?;
    Ok(write_label(&label, again)?)
}

fn privilege(alloc: Global, text: &[u8], again: &mut Vec<u8>) -> Result<(), Fail> {
    let (privilege, _) = read_privilege(alloc, text, 0)?;
    Ok(write_privilege(&privilege, again)?)
}

fn value(alloc: Global, text: &[u8], again: &mut Vec<u8>) -> Result<(), Fail> {
    let (value, _) = read_value(alloc, text, 0)?;
    Ok(write_value(value.value(), again)?)
}

fn filter(alloc: Global, text: &[u8], again: &mut Vec<u8>) -> Result<(), Fail> {
    let filter = read_filter(alloc, text)?;
    Ok(write_filter(alloc, &filter, again)?)
}

#[test]
fn literals_are_written_as_they_were_read(rt: HostRuntime) -> Result<(), Fail> {
    let alloc = rt.alloc();
    let mut again = Vec::new(alloc);
    tag(alloc, b"#3.1", &mut again)?;
    label(alloc, b"{#0,#3.1|#2}", &mut again)?;
    privilege(alloc, b"#0-auth", &mut again)?;
    value(alloc, b"[1,(a=\"b\",c=x\"00\")]", &mut again)?;
    filter(alloc, b"a?&t.b^\"c\"", &mut again)?;
    assert_eq!(rt;
        again.as_slice(),
        b"#3.1{#0,#3.1|#2}#0-auth[1,(a=\"b\",c=x\"00\")]a?&t.b^\"c\"".as_slice()
    );
    Ok(())
}
