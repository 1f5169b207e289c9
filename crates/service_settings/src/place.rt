//! Where in a services file a fault is.

use pool_settings::Place;

/// Where a fault of services is. `T` is how a key or a name is held: `&str`, lent by the file or the settings, in what is handed out.
#[derive(Clone, Copy, Debug, PartialEq, Eq, Drop)]
pub enum ServicesPlace<T> {
    /// A line and a column of the text, a key of the top table, a machine or a function, or a key of its table. For `NoUrl` and
    /// `DotFunction` it is a machine or a function of the settings.
    At(Place<T>),
    /// A key of the table `page`.
    PageKey(T),
}
