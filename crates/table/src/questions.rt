ghost use Rattle.std.specs.Prelude.{◌≡◌, ◌<◌, ◌≤◌, true, length, take, drop, MatchOption, All};
ghost use Rattle.std.specs.List.{AllZip};
ghost use Rattle.table.specs.Layout.{flow_lines, line_of};
ghost use Rattle.table.specs.Lines.{line_fits, weights_sum};

use crate::Table;
use crate::line::{Kind, Line};
use crate::sixteen::sixteen_of;

impl Table {
    /// The reference that the table asks for.
    pub fn kind(&self) -> Kind
        ensures { result ≡ self.now.kind }
    {
        self.kind
    }

    /// How far tags look ahead; 0 for round robin.
    pub fn lookahead(&self) -> u8
        ensures { result ≡ self.now.lookahead }
    {
        self.lookahead
    }

    /// The number of flows, 1 to 16.
    pub fn flow_count(&self) -> u8
        ensures { result ≡ self.now.flow_count }
    {
        self.flow_count
    }

    /// What the table says of a flow; none past the last flow.
    pub fn line(&self, flow: u8) -> Option<Line>
        ensures exact { result ≡ line_of self.now flow }
        ensures fits { MatchOption result (self.now.flow_count ≤ flow) (λ l. line_fits self.now.kind l ≡ true) }
    {
        self.lines().get(usize::from(flow)).copied()
    }

    /// What the table says of each flow, from flow 0 on: 1 to 16 lines.
    pub fn lines(&self) -> &[Line]
        ensures exact { result.now ≡ flow_lines self.now }
        ensures some { 1 ≤ length result.now }
        ensures few { length result.now ≤ 16 }
    {
        &self.lines[..usize::from(self.flow_count)]
    }

    /// A value for each flow, made of its line, and the default past the last flow.
    pub fn per_flow<T: From<Line> + Default>(&self) -> [T; 16]
        ensures made { AllZip T.from_gives (flow_lines self.now) (take self.now.flow_count result) }
        ensures spare { All T.is_default (drop self.now.flow_count result) }
    {
        sixteen_of(self.lines())
    }

    /// The sum of the weights of all flows; at least 1.
    pub fn total_weight(&self) -> u16
        ensures exact { result ≡ weights_sum (flow_lines self.now) }
        ensures positive { 0 < result }
    {
        self.lines().iter().map(|line| u16::from(line.weight)).sum()
    }
}
