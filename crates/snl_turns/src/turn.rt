//! A message of a client, as it came.

/// One message: a header that gives no length, so that there is no body, or a body.
#[derive(Clone, Copy)]
pub enum Turn<'a> {
    HeaderAlone,
    Body(&'a [u8]),
}
