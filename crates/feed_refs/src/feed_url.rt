//! The URL of a feed.
ghost use Rattle.std.specs.Prelude.{◌≡◌, ◌↔◌, IfOk, IsTrue, None};
ghost use Rattle.url.specs.Parser.{IsOutOfRoom, parse_url};
ghost use Rattle.feed_refs.specs.Urls.{https_read, parsed_read, url_read};

use geo_addr::{Memory, Text};
use std::alloc::Global;
use url::{ParseError, Url};

/// What a text is as the URL of a feed, by the URL Standard as the crate `url` reads it.
#[derive(Debug, Drop, PartialEq, Eq)]
pub enum UrlRead {
    /// It is not UTF-8, or no URL.
    Refused,
    /// It is a URL of another scheme than https.
    OtherScheme,
    /// It is an https URL; its serialised text.
    Https(Text),
}

/// Reads the URL of a feed, which is an https URL (RFC 9632, section 3), and serialises it.
///
/// A URL that comes to 4 GB counts as want of memory.
pub fn read_url(alloc: Global, text: &[u8]) -> Result<UrlRead, Memory>
    ensures { IfOk result (λ read. read ≡ url_read text.now) }
{
    match str::from_utf8(text) {
        Ok(text) => parsed(alloc, text),
        Err(_) => Ok(UrlRead::Refused),
    }
}

fn parsed(alloc: Global, text: &str) -> Result<UrlRead, Memory>
    ensures { IfOk result (λ read. read ≡ parsed_read (parse_url None text.now)) }
{
    match Url::parse(alloc, text) {
        Ok(url) => read_scheme(alloc, &url),
        Err(cause) => {
            if is_out_of_room(cause) {
                Err(Memory)
            } else {
                Ok(UrlRead::Refused)
            }
        }
    }
}

fn is_out_of_room(cause: ParseError) -> bool
    ensures { IsTrue result ↔ IsOutOfRoom cause }
{
    match cause {
        ParseError::OutOfMemory => true,
        ParseError::Overflow => true,
        _ => false,
    }
}

// The serialised text of a URL where its scheme is https.
fn read_scheme(alloc: Global, url: &Url) -> Result<UrlRead, Memory>
    ensures { IfOk result (λ read. read ≡ https_read url.now) }
{
    if url.scheme() == "https" {
        Ok(UrlRead::Https(Text::of(alloc, url.as_str())?))
    } else {
        Ok(UrlRead::OtherScheme)
    }
}
