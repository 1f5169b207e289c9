//! Whether the page of a farm is open.

use page_server::PageTimes;
use service_settings::Page;
use std::alloc::{AllocError, Global};
use std::io;
use std::sync::{Mutex, Wait};

/// What came of the tries to open a page.
#[derive(Clone, Copy, Debug, PartialEq, Eq)]
enum Tries {
    /// There was none.
    Nothing,
    /// The page is not open.
    InVain,
    /// The page is open.
    Opened,
}

/// The page of a farm, which is opened at the start, and else at the first attempt that can open it.
#[derive(Drop)]
pub struct PageDoor<'p> {
    /// The page.
    pub page: &'p Page,
    /// The times that it goes by.
    pub times: PageTimes,
    tries: Mutex<Tries>,
}

impl<'p> PageDoor<'p> {
    /// That of this page before the first try.
    pub fn new(page: &'p Page, times: PageTimes) -> PageDoor<'p> {
        PageDoor {
            page,
            times,
            tries: Mutex::new(Tries::Nothing),
        }
    }

    /// Whether the page is open.
    pub fn is_open<R: Wait>(&self, rt: &R) -> bool {
        *self.tries.lock(rt) == Tries::Opened
    }

    /// It was tried to open the page. The line of what is new: that the first try failed, as `nopage 127.0.0.1:4780 (WHY)`, or that a later
    /// one did not, as `page 127.0.0.1:4780`.
    pub fn note_try<R: Wait>(
        &self,
        rt: &R,
        alloc: Global,
        came: &io::Result<()>,
    ) -> Option<Result<String, AllocError>> {
        let mut held = self.tries.lock(rt);
        let listen = self.page.listen();
        match (*held, came) {
            (Tries::Nothing, Err(error)) => {
                *held = Tries::InVain;
                Some(format!(in alloc; "nopage {listen} ({error})"))
            }
            (Tries::InVain, Ok(())) => {
                *held = Tries::Opened;
                Some(format!(in alloc; "page {listen}"))
            }
            (_, Ok(())) => {
                *held = Tries::Opened;
                None
            }
            (_, Err(_)) => None,
        }
    }
}
