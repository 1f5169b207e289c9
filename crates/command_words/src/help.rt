//! What the help of each command says.

/// What the help of a command says beside its operands.
#[derive(Clone, Copy)]
pub struct Help {
    pub about: &'static str,
    pub usage: &'static str,
    pub example: &'static str,
}

pub const PLAN: Help = Help {
    about: "Reads a status text and prints the best plan, with evidence that no plan is better",
    usage: "poolman plan SETTINGS [LOST]... < STATUS",
    example: "Example: poolman plan settings.toml b/0 < status.txt",
};

pub const CHECK: Help = Help {
    about: "Verifies a report by the settings and the status text alone",
    usage: "poolman check SETTINGS STATUS [LOST]... < REPORT",
    example: "Example: poolman check settings.toml status.txt b/0 < report.txt",
};

pub const SIZE: Help = Help {
    about: "Reads a status text and prints how many workers are missing, and where, with evidence that fewer are not enough",
    usage: "poolman size SETTINGS BACKLOG [LOST]... < STATUS",
    example: "Example: poolman size settings.toml 4 < status.txt",
};

pub const CHECK_SIZE: Help = Help {
    about: "Verifies what size printed, by the settings and the status text alone",
    usage: "poolman check-size SETTINGS STATUS BACKLOG [LOST]... < SIZE",
    example: "Example: poolman check-size settings.toml status.txt 4 < size.txt",
};

pub const REPLAY: Help = Help {
    about: "Runs command lines on a new pool, without a server, and prints what each answers",
    usage: "poolman replay SETTINGS < COMMANDS",
    example: "Example: printf 'join a/0\\nload x 6 0\\nround\\norder a/0\\n' | poolman replay settings.toml",
};

pub const SETTINGS: Help = Help {
    about: "Prints what a settings file means, or where its first mistake is; with a services file, what both mean",
    usage: "poolman settings SETTINGS [SERVICES]",
    example: "Example: poolman settings settings.toml services.toml",
};

pub const RUN: Help = Help {
    about: "Runs workers with three sample jobs for ROUNDS attempts to plan, and accounts for each job",
    usage: "poolman run SETTINGS ROUNDS",
    example: "Example: poolman run settings.toml 3600",
};

pub const SERVE: Help = Help {
    about: "Runs workers whose jobs your HTTP services do, until it is told to stop",
    usage: "poolman serve SETTINGS SERVICES [--until-input]",
    example: "Example: poolman serve settings.toml services.toml",
};

pub const DRAIN: Help = Help {
    about: "Ends a running farm by its page once its jobs are finished, and prints its totals",
    usage: "poolman drain SERVICES",
    example: "Example: poolman drain services.toml",
};

pub const PROGRAM: Help = Help {
    about: "Plans which worker of a Gearman pool serves which function, and shows that no plan is better",
    usage: "poolman COMMAND ...",
    example: "`poolman COMMAND --help` explains a command.",
};
