// Laws over the definitions alone.
ghost use Rattle.listed_lines.specs.Laws.{OrderIsOne, ListingIsOne, ListedIsListing, ListingsAgree};

/// What `listing_text::order` makes of lines is `in_order` of them: their order tells any two different lines apart.
pub fn order_is_one()
    ensures { OrderIsOne }
{}

/// The lines of a listing of a directory are `listed`, whatever the tree; and `listed` is such a listing.
pub fn listing_is_one()
    ensures one { ListingIsOne }
    ensures itself { ListedIsListing }
{}

/// Two listings of a directory with the same switches have the same lines in the same order.
pub fn listings_agree()
    ensures { ListingsAgree }
{}
